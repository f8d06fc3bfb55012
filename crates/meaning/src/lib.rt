// The meaning of a program: the reduct, its least model, stable assignments, unfounded sets; and the answers of the calls. The definitions
// stand in specs/, the laws about them in proofs/.
#![tactic(auto)]

ghost use Rattle.std.specs.Prelude.{◌≡◌};

use program::{Refusal, Rejection};

// Why a call is turned down: the file, the length of the assignment or of the lent ranges (14), the lent buffer's, by the variables (15) or by what is written (17);
// a tree that is not well formed (18), or whose added variables' ranges are too wide (19), with the place of its field; a lent range that leaves its declared one or is empty (20).
#[derive(Clone, Copy)]
pub enum Denied {
    File(Refusal, usize),
    Assignment,
    Buffer,
    Room,
    Tree(usize),
    Added(usize),
    Ranges,
}

// A refusal of the file turns down the call.
impl From<Rejection> for Denied {
    ghost use Rattle.meaning.specs.declared.Denied.TheVariants.{File};

    ghost from_gives = { λ refused why. why ≡ File refused.why refused.at };

    fn from(refused: Rejection) -> Denied {
        Denied::File(refused.why, refused.at)
    }
}

// What the call least answers where it is not turned down.
#[derive(Drop)]
pub enum Solved {
    Range(usize),
    Nothing,
    Found,
}
