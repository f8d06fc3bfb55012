// The report of an unfounded assignment.
ghost use Rattle.std.specs.Prelude.{◌≡◌, ◌*◌, ◌≤◌, length};
ghost use Rattle.words.specs.Bit.{has};
ghost use Rattle.comparison.specs.Shows.{entry_count, with_sets};
ghost use Rattle.program.specs.Readings.{valued};
ghost use Rattle.program.specs.Evaluable.{Small};

use conditions::asking::Asked;
use conditions::short::Parts;
use format::Format;
use report::writing;

// The bounds, and directly after the last of them the conditions.
pub fn write_report(
    report: &mut [u8],
    parts: Parts,
    asked: Asked,
    model: &[i64; Format::MAX_VARIABLES],
    assigned: &[i64; Format::MAX_VARIABLES],
)
    requires words_in_bounds { 4 * entry_count (has parts.below.words) (has parts.above.words) (has asked.most.words) (has asked.least.words) ≤ length report.old }
    requires small { Small model.now × Small assigned.now }
    ensures { report.new
        ≡ with_sets (has parts.below.words) (has parts.above.words) (has asked.most.words) (has asked.least.words) (valued model.now)
        (valued assigned.now) report.old }
{
    let below = parts.below.count() as usize;
    let above = parts.above.count() as usize;
    let n = below + above;
    writing::write_bounds(report, parts.below, parts.above, model);
    writing::write_conditions(&mut report[4 * n..], asked.most, asked.least, assigned);
}
