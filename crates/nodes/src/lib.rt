// The nodes of trees, as they stand in their bytes: two bytes a node.
#![tactic(auto)]

ghost use Rattle.std.specs.Prelude.{◌≡◌, false, ◌*◌, ◌≤◌, leb, length, drop};
ghost use Rattle.format.specs.Limits.{max_file};
ghost use Rattle.flat.specs.Flat.{OneTree, inners_in, leaves_in, any_in, twice_with, size_in, flat_size};

use sets::Set;

// How many inner nodes there are.
pub fn inners(s: &[u8]) -> usize
    ensures { (result ≡ inners_in s.now) × (2 * result ≤ length s.now) }
{
    let mut n = 0;
    for node in s.chunks_exact(2) {
        if node[0] != 0 {
            n += 1;
        }
    }
    n
}

// Whether some leaf's variable is not among the first n.
pub fn is_undeclared(s: &[u8], n: usize) -> bool
    ensures { result ≡ any_in (leb n) (leaves_in s.now) }
{
    for node in s.chunks_exact(2) {
        if node[0] == 0 {
            let x = node[1] as usize;
            if n <= x {
                return true;
            }
        }
    }
    false
}

// Whether some variable stands at two leaves.
pub fn is_twice(s: &[u8]) -> bool
    ensures { result ≡ twice_with (λ x. false) (leaves_in s.now) }
{
    let mut seen = Set::empty();
    for node in s.chunks_exact(2) {
        if node[0] == 0 {
            let x = node[1];
            if seen.contains(x) {
                return true;
            }
            seen = seen.insert(x);
        }
    }
    false
}

// The bytes of the rules of the inner nodes from `from` on.
fn size_from(s: &[u8], from: usize) -> usize
    requires { (from ≤ length s.now) × (length s.now ≤ max_file) }
    ensures { (result ≡ size_in (drop from s.now)) × (result ≤ 514 * length s.now) }
{
    let mut n = 0;
    for node in s[from..].chunks_exact(2) {
        if node[0] != 0 {
            n += 7 + 4 * node[1] as usize;
        }
    }
    n
}

// The bytes of the rules of a tree.
pub fn size(s: &[u8]) -> usize
    requires { OneTree s.now × (length s.now ≤ max_file) }
    ensures { result ≡ flat_size s.now }
{
    let below = size_from(s, 2);
    if s[0] == 0 {
        return 11 + below;
    }
    7 + 4 * s[1] as usize + below
}
