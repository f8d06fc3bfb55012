// The framing of a program's input: two bytes for a file's length, the file, and the rest to the end.
#![tactic(auto)]

ghost use Rattle.std.specs.Prelude.{◌≡◌};
ghost use Rattle.framing.specs.Framing.{misframed, framing_number};

#[derive(Drop)]
pub struct Framing {}

impl Framing {
    // The number of the refusal of a misframed input.
    pub const REFUSAL: usize = 16;

    // The constant of the code is that of the specification.
    pub fn quoted()
        ensures { Framing.REFUSAL ≡ framing_number }
    {}
}

// Whether the input is misframed, where it has so many bytes at most.
pub fn is_misframed(input: &[u8], most: usize) -> bool
    ensures { result ≡ misframed most input.now }
{
    if input.len() < 2 {
        return true;
    }
    if input.len() < 2 + format::unsigned_at(input, 0) {
        return true;
    }
    most < input.len()
}
