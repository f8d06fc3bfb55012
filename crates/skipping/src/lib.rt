// Trees skipped, as they stand in their bytes.
#![tactic(auto)]

ghost use Rattle.std.specs.Prelude.{◌≤◌, length, drop};
ghost use Rattle.flat.specs.Flat.{Stand};
ghost use Rattle.skipping.specs.Skipping.{Skips};

// Where trees end that were skipped, and how many inner nodes they have.
#[derive(Drop)]
pub struct Skipped {
    pub end: usize,
    pub inners: usize,
}

// Skips n trees from `at` on.
pub fn skip(s: &[u8], at: usize, n: usize) -> Skipped
    requires { (at ≤ length s.now) × Stand (drop at s.now) n }
    ensures { Skips s.now at n result }
{
    let mut need = n;
    let mut end = at;
    let mut inners = 0;
    while 0 < need {
        need -= 1;
        if s[end] != 0 {
            need += s[end + 1] as usize;
            inners += 1;
        }
        end += 2;
    }
    Skipped { end, inners }
}
