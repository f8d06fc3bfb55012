// What a variable's record says of its values.
ghost use Rattle.std.specs.Prelude.{◌≡◌, not};
ghost use Rattle.program.specs.Variables.{is_founded, from_above, swaps, start, far, not_past, in_range, started, short};

use crate::Variable;

impl Variable {
    pub fn is_founded(self) -> bool
        ensures { result ≡ is_founded self }
    {
        let below = self.kind == 1;
        let above = self.kind == 2;
        below | above
    }

    pub fn is_from_above(self) -> bool
        ensures { result ≡ from_above self }
    {
        self.kind == 2
    }

    // The first of two, or the second where it is founded from above.
    fn swaps(self, a: i64, b: i64) -> i64
        ensures { result ≡ swaps self a b }
    {
        if self.is_from_above() { b } else { a }
    }

    // The end of its range from which rules lift it, and the other end.
    pub fn start(self) -> i64
        ensures { result ≡ start self }
    {
        self.swaps(self.low, self.high)
    }

    pub fn far(self) -> i64
        ensures { result ≡ far self }
    {
        self.swaps(self.high, self.low)
    }

    // Whether a comes before b in its order.
    pub fn is_before(self, a: i64, b: i64) -> bool
        ensures { result ≡ not (not_past self b a) }
    {
        if self.is_from_above() { b < a } else { a < b }
    }

    // Whether a value lies in its range.
    pub fn contains(self, a: i64) -> bool
        ensures { result ≡ in_range self a }
    {
        let from = self.low <= a;
        let to = a <= self.high;
        from & to
    }

    // Where the least model begins: at its starting end where it is founded, else at its assigned value.
    pub fn started(self, assigned: i64) -> i64
        ensures { result ≡ started self assigned }
    {
        let start = self.start();
        if self.is_founded() { start } else { assigned }
    }

    // Whether it is founded and its least value comes before its assigned one.
    pub fn is_short(self, assigned: i64, least: i64) -> bool
        ensures { result ≡ short self assigned least }
    {
        let founded = self.is_founded();
        let before = self.is_before(least, assigned);
        founded & before
    }
}
