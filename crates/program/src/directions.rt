// Which way a position pushes, as tests, and as seen from a variable's starting end.
ghost use Rattle.std.specs.Prelude.{◌≡◌};
ghost use Rattle.program.specs.Directions.{opposite, away, is_rising, is_mixed};

use crate::{Direction, Variable};

impl Direction {
    pub fn opposite(self) -> Self
        ensures { result ≡ opposite self }
    {
        match self {
            Direction::Rising => Direction::Falling,
            Direction::Falling => Direction::Rising,
            Direction::Mixed => Direction::Mixed,
        }
    }

    pub fn is_rising(self) -> bool
        ensures { result ≡ is_rising self }
    {
        matches!(self, Direction::Rising)
    }

    pub fn is_mixed(self) -> bool
        ensures { result ≡ is_mixed self }
    {
        matches!(self, Direction::Mixed)
    }
}

impl Variable {
    // A direction, turned where moving away from the variable's starting end is moving down.
    pub fn away(self, d: Direction) -> Direction
        ensures { result ≡ away self d }
    {
        if self.is_from_above() {
            return d.opposite();
        }
        d
    }
}
