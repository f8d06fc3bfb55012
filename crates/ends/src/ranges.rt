// The lent ranges of the variables.
ghost use Rattle.std.specs.Prelude.{◌≡◌, ◌*◌, ◌/◌, ◌≤◌, length};
ghost use Rattle.format.specs.Limits.{max_variables};
ghost use Rattle.program.specs.Program.{variables_at};
ghost use Rattle.program.specs.Readings.{valued};
ghost use Rattle.reduct.specs.Filling.{Filled};
ghost use Rattle.lent.specs.Ranges.{low_in, high_in, fits};
ghost use Rattle.ends.specs.Ends.{FitIs, other_end, other_ends, stop_end, stop_ends};

use format::Format;
use parts::variables;
use program::Variable;

// The ends of the ranges, four bytes each; those past the last range stay.
pub fn load(
    bytes: &[u8],
    lows: &mut [i64; Format::MAX_VARIABLES],
    highs: &mut [i64; Format::MAX_VARIABLES],
)
    requires { (length bytes.now ≤ 4 * max_variables) × (length lows.old ≡ max_variables) × (length highs.old ≡ max_variables) }
    ensures lows_len { (length lows.new ≡ max_variables) × (length highs.new ≡ max_variables) }
    ensures filled { Filled (low_in bytes.now) (length bytes.now / 4) lows.old lows.new }
    ensures filled_2 { Filled (high_in bytes.now) (length bytes.now / 4) highs.old highs.new }
{
    let n = bytes.len() / 4;
    for v in 0..n {
        let low = format::signed_at(bytes, 4 * v);
        let high = format::signed_at(bytes, 4 * v + 2);
        lows[v] = low;
        highs[v] = high;
    }
}

// Whether a range lies inside the declared one of x and is not empty.
fn fits(x: Variable, low: i64, high: i64) -> bool
    ensures { result ≡ fits x low high }
{
    let from = x.low <= low;
    let ordered = low <= high;
    let to = high <= x.high;
    from & (ordered & to)
}

// Whether every range does so.
pub fn all_fit(
    file: &[u8],
    variables: usize,
    lows: &[i64; Format::MAX_VARIABLES],
    highs: &[i64; Format::MAX_VARIABLES],
) -> bool
    requires { (8 * variables ≤ length file.now) × (variables ≤ max_variables) }
    ensures { FitIs (variables_at file.now variables) (valued lows.now) (valued highs.now) variables result }
{
    for v in 0..variables {
        let low = lows[v];
        let high = highs[v];
        let x = variables::variable(file, v as u8);
        if !fits(x, low, high) {
            return false;
        }
    }
    true
}

// The end at which a position of x that is not read in the model is read.
fn other_end(x: Variable, low: i64, high: i64) -> i64
    ensures { result ≡ other_end x low high }
{
    let kind = x.kind;
    if kind == 1 { low } else { high }
}

// The end at which lifts of x stop.
fn stop_end(x: Variable, low: i64, high: i64) -> i64
    ensures { result ≡ stop_end x low high }
{
    if x.is_from_above() { low } else { high }
}

// Both ends of each variable; those past the last variable stay.
pub fn set_ends(
    file: &[u8],
    variables: usize,
    lows: &[i64; Format::MAX_VARIABLES],
    highs: &[i64; Format::MAX_VARIABLES],
    others: &mut [i64; Format::MAX_VARIABLES],
    stops: &mut [i64; Format::MAX_VARIABLES],
)
    requires variables_in_bounds { (8 * variables ≤ length file.now) × (variables ≤ max_variables) }
    requires others_len { (length others.old ≡ max_variables) × (length stops.old ≡ max_variables) }
    ensures others_len_2 { (length others.new ≡ max_variables) × (length stops.new ≡ max_variables) }
    ensures filled { Filled (other_ends (variables_at file.now variables) (valued lows.now) (valued highs.now)) variables
        others.old others.new }
    ensures filled_2 { Filled (stop_ends (variables_at file.now variables) (valued lows.now) (valued highs.now)) variables
        stops.old stops.new }
{
    for v in 0..variables {
        let low = lows[v];
        let high = highs[v];
        let x = variables::variable(file, v as u8);
        let other = other_end(x, low, high);
        let stop = stop_end(x, low, high);
        others[v] = other;
        stops[v] = stop;
    }
}
