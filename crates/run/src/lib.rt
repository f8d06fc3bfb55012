// The run to the least model: what rules demand of their heads, and the raises.
#![tactic(auto)]

ghost use Rattle.std.specs.Prelude.{◌≡◌};
ghost use Rattle.run.specs.Running.{free_bit};

use format::Format;
use program::Counts;

pub mod demands;
pub mod solve;

// What a run reads and never writes: the file and its counts, for each rule the place of its field and its mask, the values that positions which are not kept read, and the
// stops of lifts, which count only where `cut` says so. The readers of the variables are a list of their own, for they are filled by these.
#[derive(Clone, Copy)]
pub struct Source<'a> {
    pub file: &'a [u8],
    pub counts: Counts,
    pub offsets: &'a [u16],
    pub masks: &'a [u32],
    pub others: &'a [i64; Format::MAX_VARIABLES],
    pub stops: &'a [i64; Format::MAX_VARIABLES],
    pub cut: bool,
}

// There is no model.
#[derive(Clone, Copy)]
pub struct NoModel;

#[derive(Drop)]
pub struct Masks {}

impl Masks {
    // The bit of a rule's mask that says that the rule gives what lifts of its head stop at, whatever it reads; below it stand the bits of its positions.
    pub const FREE: u32 = 31;

    // The constant of the code is that of the specification.
    pub fn quoted()
        ensures { Masks.FREE ≡ free_bit }
    {}
}
