// Trees: a node reads its children, and each child is again a node.
#![tactic(auto)]

ghost use Rattle.std.specs.Prelude.{◌≡◌, ◌≤◌, length, drop};
ghost use Rattle.trees.specs.Tree.{inner_bytes, several, tree_in, max_levels, max_children};
ghost use Rattle.descent.specs.Ends.{Ends};

#[derive(Drop)]
pub struct Limits {}

impl Limits {
    // The most levels of a tree, root and leaves included.
    pub const LEVELS: usize = 8;

    // The most children of a node.
    pub const CHILDREN: usize = 16;

    // The limits of the code are those of the specification.
    pub fn quoted()
        ensures levels { Limits.LEVELS ≡ max_levels }
        ensures children { Limits.CHILDREN ≡ max_children }
    {}
}

// Whether these are the byte and the child count of a sum, max or min.
fn is_inner(form: u8, n: u8) -> bool
    ensures { result ≡ inner_bytes form n }
{
    match form {
        1..=3 => match n {
            1..=16 => true,
            0 | 17..=255 => false,
        },
        0 | 4..=255 => false,
    }
}

// The tree of at most so many levels that begins at `at`.
#[cycle(children_node)]
pub fn node(s: &[u8], at: usize, levels: usize) -> Option<usize>
    requires { at ≤ length s.now }
    ensures { Ends (tree_in levels (drop at s.now)) s.now at result }
{
    if levels == 0 {
        return None;
    }
    if s.len() - at < 2 {
        return None;
    }
    let form = s[at];
    let n = s[at + 1];
    if form == 0 {
        return Some(at + 2);
    }
    if !is_inner(form, n) {
        return None;
    }
    children(s, at + 2, n as usize, levels - 1)
}

// n trees of at most so many levels, one after the other from `at` on.
#[cycle(children_node)]
fn children(s: &[u8], at: usize, n: usize, levels: usize) -> Option<usize>
    requires { at ≤ length s.now }
    ensures { Ends (several (tree_in levels) n (drop at s.now)) s.now at result }
{
    let mut end = at;
    for _ in 0..n {
        let Some(next) = node(s, end, levels) else {
            return None;
        };
        end = next;
    }
    Some(end)
}
