// The program that a rule file means, and what reading a file answers. The definitions stand in specs/, the laws about them in proofs/.
#![tactic(auto)]

ghost use Rattle.std.specs.Prelude.{◌≡◌, ◌<◌};
ghost use Rattle.format.specs.Limits.{max_file};
ghost use Rattle.program.specs.Reading.{number_of, counted};

use format::Format;

pub mod directions;
pub mod ranges;

// Why a file is turned down.
#[derive(Clone, Copy)]
pub enum Refusal {
    FileTooLong = 1,
    CutShort = 2,
    UnknownTag = 3,
    TagBelow = 4,
    OneTooMany = 5,
    WrongLength = 6,
    WrongForm = 7,
    OutsideRange = 8,
    Undeclared = 9,
    WrongCount = 10,
    VariableTwice = 11,
    NegativeProduct = 12,
    NotValid = 13,
}

// The number of a refusal.
pub fn number_of(why: Refusal) -> usize
    ensures { result ≡ number_of why }
{
    why as usize
}

// A refusal and its place.
#[derive(Clone, Copy)]
pub struct Rejection {
    pub why: Refusal,
    pub at: usize,
}

// How many variables, rules and constraints a file has.
#[derive(Clone, Copy)]
pub struct Counts {
    pub variables: usize,
    pub rules: usize,
    pub constraints: usize,
}

impl Counts {
    pub fn empty() -> Self
        ensures { result ≡ record { variables = 0; rules = 0; constraints = 0 } }
    {
        Counts {
            variables: 0,
            rules: 0,
            constraints: 0,
        }
    }

    // One more of the kind that the tag names.
    pub fn with(self, tag: u8) -> Self
        requires { (self.variables < max_file) × (self.rules < max_file) × (self.constraints < max_file) }
        ensures { result ≡ counted tag self }
    {
        match tag {
            Format::VARIABLE => Counts {
                variables: self.variables + 1,
                ..self
            },
            Format::RULE => Counts {
                rules: self.rules + 1,
                ..self
            },
            Format::CONSTRAINT => Counts {
                constraints: self.constraints + 1,
                ..self
            },
            0 | 4..=255 => self,
        }
    }
}

// A variable: its kind (0 standard, 1 founded, 2 founded from above) and its range.
#[derive(Clone, Copy)]
pub struct Variable {
    pub kind: u8,
    pub low: i64,
    pub high: i64,
}

// A term: op 0 is a plain one, op 1 says variable ≥ number, op 2 variable < number; op 3 carries a divisor and names no variable.
#[derive(Clone, Copy)]
pub struct Term {
    pub variable: u8,
    pub op: u8,
    pub number: i64,
}

// Which way a position of a rule's body pushes.
#[derive(Clone, Copy)]
pub enum Direction {
    Rising,
    Falling,
    Mixed,
}
