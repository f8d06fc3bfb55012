// Reads a rule file: `read` answers for every slice of bytes.
#![tactic(auto)]

ghost use Rattle.std.specs.Prelude.{true};
ghost use Rattle.program.specs.Reading.{Reads, answer_of};
ghost use Rattle.fields.specs.Scanning.{Counted};
ghost use Rattle.reader.specs.Passing.{Passes};

use program::{Counts, Refusal, Rejection};

// A file whose fields meet no refusal.
fn judge_rules(file: &[u8], counts: Counts) -> Result<Counts, Rejection>
    requires { Counted file.now counts }
    ensures { Passes file.now true result }
{
    match validity::judge(file, counts) {
        None => Ok(counts),
        Some(at) => Err(Rejection {
            why: Refusal::NotValid,
            at,
        }),
    }
}

// The counts of a file whose fields meet no refusal and, where it is judged, none of whose rules offends; or its first refusal.
pub fn pass(file: &[u8], judged: bool) -> Result<Counts, Rejection>
    ensures { Passes file.now judged result }
{
    let counts = fields::scan::scan(file)?;
    if judged {
        return judge_rules(file, counts);
    }
    Ok(counts)
}

// The three counts of an accepted file, or the first refusal with its number and place.
#[tactic(auto, using(crate::proofs::ReadLaws::passed))]
pub fn read(file: &[u8]) -> Result<Counts, Rejection>
    ensures { Reads file.now (answer_of result) }
{
    pass(file, true)
}
