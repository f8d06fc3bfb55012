// Whether a call is turned down, by its file and the lengths of its assignment and its lent buffer.
#![tactic(auto)]

ghost use Rattle.std.specs.Prelude.{◌≡◌, List, ℕ, ◌≤◌, length};
ghost use Rattle.format.specs.Limits.{max_variables};
ghost use Rattle.program.specs.Reading.{AcceptedAs};
ghost use Rattle.meaning.specs.Calls.{denial_number, denial_place, Opened};
ghost use Rattle.calls.specs.Asked.{most_asked};

use meaning::Denied;
use program::Counts;

// The number of a call's refusal, and its place.
pub fn denial_number(why: Denied) -> usize
    ensures { result ≡ denial_number why }
{
    match why {
        Denied::File(why, _) => program::number_of(why),
        Denied::Assignment => 14,
        Denied::Buffer => 15,
        Denied::Room => 17,
        Denied::Tree(_) => 18,
        Denied::Added(_) => 19,
        Denied::Ranges => 20,
    }
}

pub fn denial_place(why: Denied) -> usize
    ensures { result ≡ denial_place why }
{
    match why {
        Denied::File(_, at) => at,
        Denied::Assignment => 0,
        Denied::Buffer => 0,
        Denied::Room => 0,
        Denied::Tree(at) => at,
        Denied::Added(at) => at,
        Denied::Ranges => 0,
    }
}

// A file that is accepted with these counts.
fn fitted(assignment: &[u8], room: usize, bytes: usize, counts: Counts) -> Result<Counts, Denied>
    requires { (bytes ≤ most_asked) × (counts.variables ≤ max_variables) }
    ensures { (s b : List ℕ) → length b ≡ room → AcceptedAs s counts → Opened bytes s assignment.now b result }
{
    let n = counts.variables;
    if assignment.len() != 2 * n {
        return Err(Denied::Assignment);
    }
    if room < bytes * n {
        return Err(Denied::Buffer);
    }
    Ok(counts)
}

// So many bytes for each variable are asked of a buffer that has `room`.
pub fn open(file: &[u8], assignment: &[u8], room: usize, bytes: usize) -> Result<Counts, Denied>
    requires { bytes ≤ most_asked }
    ensures { (b : List ℕ) → length b ≡ room → Opened bytes file.now assignment.now b result }
{
    let counts = reader::read(file)?;
    fitted(assignment, room, bytes, counts)
}
