// The field at a place: tag (1), length (2), value.
ghost use Rattle.std.specs.Prelude.{◌≡◌, ◌≤◌, length};
ghost use Rattle.program.specs.Fields.{value_at, next_at};

// Its value, as that stretch of the file.
pub fn value_at(file: &[u8], at: usize) -> &[u8]
    requires { next_at file.now at ≤ length file.now }
    ensures { result.now ≡ value_at file.now at }
{
    let start = at + 3;
    let len = format::unsigned_at(file, at + 1);
    &file[start..start + len]
}

// The place of the next field.
pub fn next_at(file: &[u8], at: usize) -> usize
    requires { next_at file.now at ≤ length file.now }
    ensures { result ≡ next_at file.now at }
{
    at + 3 + format::unsigned_at(file, at + 1)
}
