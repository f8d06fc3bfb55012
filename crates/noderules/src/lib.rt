// The rules of a tree's nodes, in the bytes of a plain file.
#![tactic(auto)]

ghost use Rattle.std.specs.Prelude.{◌≡◌, [], ◌∷◌, ◌+◌, ◌*◌, ◌<◌, ◌≤◌, pos, length, drop, get_or};
ghost use Rattle.format.specs.Limits.{max_variables};
ghost use Rattle.format.specs.Numbers.{bytes_of};
ghost use Rattle.program.specs.Tables.{◌⇒◌, select};
ghost use Rattle.program.specs.Encode.{each, term_bytes, rule_bytes};
ghost use Rattle.flat.specs.Flat.{OneTree, inners_passed, inners_in, operand_in, root_rule, rules_in, flat_rules, root_size, size_in, flat_size};
ghost use Rattle.noderules.specs.NodeRules.{rule_at, Writable, PutIn, Left};

use format::Format;
use rewriting::writing::put;
use skipping::skip;

// An inner node, or a root: its form and head, where its children begin, how many there are, and the first number that is free for them.
#[derive(Clone, Copy)]
pub struct Inner {
    pub form: u8,
    pub head: u8,
    pub at: usize,
    pub n: usize,
    pub next: usize,
}

impl Inner {
    // The most bytes of a rule's field.
    pub const FIELD: usize = 71;
}

// The variable that stands for the tree at `at`: a leaf's own, or the number that is free.
fn operand(s: &[u8], at: usize, next: usize) -> u8
    requires { (at + 1 < length s.now) × (next + inners_passed (drop at s.now) 1 ≤ max_variables) }
    ensures { result ≡ operand_in next (drop at s.now) }
{
    if s[at] == 0 {
        return s[at + 1];
    }
    next as u8
}

// The low byte of a term's number: 1 in a sum, else 0.
fn coefficient(form: u8) -> u8
    ensures { bytes_of (select form ((1 ⇒ pos 1) ∷ []) (pos 0)) ≡ 0 ∷ result ∷ [] }
{
    match form {
        1 => 1,
        0 | 2..=255 => 0,
    }
}

// The terms of a node's rule, put in from `at` on.
fn put_terms(s: &[u8], node: Inner, out: &mut [u8], at: usize) -> usize
    requires { Writable s.now node × (at + 4 * node.n ≤ length out.old) }
    ensures { PutIn (each term_bytes (rule_at s.now node).terms) out.old at result out.new }
{
    let number = coefficient(node.form);
    let mut place = node.at;
    let mut next = node.next;
    let mut end = at;
    for i in 0..node.n {
        let x = operand(s, place, next);
        let term = [x, 0, 0, number];
        end = put(&term, out, end);
        let skipped = skip(s, place, 1);
        place = skipped.end;
        next += skipped.inners;
    }
    end
}

// The field of a node's rule, put in from `at` on.
pub fn put_node(s: &[u8], node: Inner, out: &mut [u8], at: usize) -> usize
    requires { Writable s.now node × (at + (7 + 4 * node.n) ≤ length out.old) }
    ensures { PutIn (rule_bytes (rule_at s.now node)) out.old at result out.new }
{
    let size = (4 + 4 * node.n) as u8;
    let header = [Format::RULE, 0, size, node.form, node.head, 0, 0];
    let end = put(&header, out, at);
    put_terms(s, node, out, end)
}

// The inner node at `at`, which is the variable of this number.
pub fn inner_at(s: &[u8], at: usize, number: usize) -> Inner
    requires { (at + 1 < length s.now) × (number < max_variables) }
    ensures { result ≡ record { form = get_or s.now at 0; head = number; at = at + 2; n = get_or s.now (at + 1) 0; next = number + 1 } }
{
    Inner {
        form: s[at],
        head: number as u8,
        at: at + 2,
        n: s[at + 1] as usize,
        next: number + 1,
    }
}

// The root of a tree: a leaf is a sum of one, itself.
pub fn root(s: &[u8], head: u8, next: usize) -> Inner
    requires { OneTree s.now × (next + inners_in (drop 2 s.now) ≤ max_variables) }
    ensures writable { Writable s.now result × (rule_at s.now result ≡ root_rule head next s.now) }
    ensures n_value { 7 + 4 * result.n ≡ root_size s.now }
{
    if s[0] == 0 {
        return Inner {
            form: 1,
            head,
            at: 0,
            n: 1,
            next,
        };
    }
    Inner {
        form: s[0],
        head,
        at: 2,
        n: s[1] as usize,
        next,
    }
}

// The rules of the inner nodes from `from` on, put in from `at` on; the first is the variable `next`.
fn put_inner(s: &[u8], from: usize, next: usize, out: &mut [u8], at: usize) -> usize
    requires { Left s.now from next × (at + size_in (drop from s.now) ≤ length out.old) }
    ensures { PutIn (each rule_bytes (rules_in next (drop from s.now))) out.old at result out.new }
{
    let mut number = next;
    let mut end = at;
    for place in (from..s.len()).step_by(2) {
        if s[place] != 0 {
            end = put_node(s, inner_at(s, place, number), out, end);
            number += 1;
        }
    }
    end
}

// The rules of a tree for its head, put in from `at` on.
pub fn put_tree(s: &[u8], head: u8, next: usize, out: &mut [u8], at: usize) -> usize
    requires one_tree { OneTree s.now × (next + inners_in (drop 2 s.now) ≤ max_variables) }
    requires s_in_bounds { at + flat_size s.now ≤ length out.old }
    ensures { PutIn (each rule_bytes (flat_rules head next s.now)) out.old at result out.new }
{
    let end = put_node(s, root(s, head, next), out, at);
    put_inner(s, 2, next, out, end)
}
