// Values written as two bytes each.
ghost use Rattle.std.specs.Prelude.{◌≡◌, ◌++◌, ℕ, ◌*◌, ◌<◌, ◌≤◌, nat_abs, length, drop};
ghost use Rattle.format.specs.Limits.{max_variables, max_number};
ghost use Rattle.meaning.specs.LeastCall.{written};
ghost use Rattle.program.specs.Readings.{valued};

use format::Format;

// The first n values, from the buffer's first byte on.
pub fn write_values(values: &[i64; Format::MAX_VARIABLES], n: usize, buffer: &mut [u8])
    requires n_le_max_variables { (n ≤ max_variables) × (2 * n ≤ length buffer.old) }
    requires by_index { (v : ℕ) → v < n → nat_abs (valued values.now v) ≤ max_number }
    ensures { buffer.new ≡ written (valued values.now) n ++ drop (2 * n) buffer.old }
{
    for (v, &value) in values[..n].iter().enumerate() {
        let high = format::high_byte(value);
        let low = format::low_byte(value);
        buffer[2 * v] = high;
        buffer[2 * v + 1] = low;
    }
}
