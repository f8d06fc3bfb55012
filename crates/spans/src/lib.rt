// The ranges of a tree's added variables: each node's values with all leaves at their lows and with all at their highs.
#![tactic(auto)]

ghost use Rattle.std.specs.Prelude.{◌≡◌, true, not, ◌||◌, List, ◌++◌, ◌+◌, ◌*◌, ◌≤◌, ◌<◌, nat_abs, length, drop};
ghost use Rattle.format.specs.Limits.{max_variables, max_number};
ghost use Rattle.program.specs.Readings.{valued};
ghost use Rattle.program.specs.Evaluable.{Small};
ghost use Rattle.program.specs.Encode.{variable_bytes, All};
ghost use Rattle.program.specs.declared.Variable.{Variable};
ghost use Rattle.rewriting.specs.Writing.{put_at};
ghost use Rattle.flat.specs.Flat.{OneTree, inners_in, leaves_in, values_in, ranged};
ghost use Rattle.noderules.specs.NodeRules.{Writable};
ghost use Rattle.spans.specs.Spans.{records_length, Tables, Tabled, any_beyond};
ghost use Rattle.spans.specs.Filling.{node_value, node_variable, Filled};

use bodies::Readings;
use evaluation::rules::gives;
use format::Format;
use noderules::{Inner, inner_at, put_node};
use program::Variable;
use rewriting::writing::put;

#[derive(Drop)]
pub struct Records {}

impl Records {
    // The bytes of all variables' fields.
    pub const LENGTH: usize = 8 * Format::MAX_VARIABLES;

    // The constant of the code is that of the specification.
    pub fn quoted()
        ensures { Records.LENGTH ≡ records_length }
    {}
}

// What a node gives when its operands have the values of a table; its form is that of an inner node.
fn value(s: &[u8], node: Inner, table: &[i64; Format::MAX_VARIABLES]) -> i64
    requires writable { Writable s.now node × (1 ≤ node.form) × (node.form ≤ 3) × (1 ≤ node.n) }
    requires small { Small table.now }
    ensures { result ≡ node_value s.now node table.now }
{
    let mut rule = [0u8; Inner::FIELD];
    let end = put_node(s, node, &mut rule, 0);
    let readings = Readings {
        kept: 0,
        first: table,
        second: table,
    };
    match gives(&rule[3..end], readings) {
        Some(a) => a,
        None => 0,
    }
}

// The field of a variable, put in its place.
fn put_record(records: &mut [u8], number: usize, x: Variable)
    requires records_len { (length records.old ≡ records_length) × (number < max_variables) }
    requires low_bound { (nat_abs x.low ≤ max_number) × (nat_abs x.high ≤ max_number) }
    ensures { records.new ≡ put_at records.old (8 * number) (variable_bytes x) }
{
    let a = format::high_byte(x.low);
    let b = format::low_byte(x.low);
    let c = format::high_byte(x.high);
    let d = format::low_byte(x.high);
    let field = [Format::VARIABLE, 0, 5, x.kind, a, b, c, d];
    put(&field, records, 8 * number);
}

// Finds the range of an inner node and enters it in the tables, unless it passes -30,000..30,000.
fn fill_node(
    lows: &mut [i64; Format::MAX_VARIABLES],
    highs: &mut [i64; Format::MAX_VARIABLES],
    records: &mut [u8],
    s: &[u8],
    node: Inner,
    kind: u8,
) -> bool
    requires writable { Writable s.now node × (1 ≤ node.form) × (node.form ≤ 3) × (1 ≤ node.n) }
    requires tables { Tables lows.old highs.old × (length records.old ≡ records_length) }
    ensures { Filled result node.head (node_variable kind s.now node lows.old highs.old)
        lows.old highs.old records.old lows.new highs.new records.new }
{
    let low = value(s, node, lows);
    let high = value(s, node, highs);
    if format::is_number_beyond(low) | format::is_number_beyond(high) {
        return false;
    }
    let v = format::wide(node.head);
    lows[v] = low;
    highs[v] = high;
    put_record(records, v, Variable { kind, low, high });
    true
}

// Enters the variables that a tree adds, of this kind, after the first `next`; answers whether none of their ranges passes -30,000..30,000. The tables are
// filled from the last node to the first, so that a node's children come before it.
pub fn fill_tree(
    lows: &mut [i64; Format::MAX_VARIABLES],
    highs: &mut [i64; Format::MAX_VARIABLES],
    records: &mut [u8],
    s: &[u8],
    next: usize,
    kind: u8,
) -> bool
    requires one_tree { OneTree s.now × (next + inners_in (drop 2 s.now) ≤ max_variables) }
    requires all { All (λ x. x < next) (leaves_in s.now) }
    requires tables { Tables lows.old highs.old × (length records.old ≡ records_length) }
    ensures value { result ≡ not (any_beyond (values_in (valued lows.old) next (drop 2 s.now))
        || any_beyond (values_in (valued highs.old) next (drop 2 s.now))) }
    ensures tables_2 { Tables lows.new highs.new × (length records.new ≡ records_length) }
    ensures tabled { (vs : List Variable) → length vs ≡ next → Tabled vs records.old lows.old highs.old → result ≡ true
        → Tabled (vs ++ ranged kind (values_in (valued lows.old) next (drop 2 s.now))
        (values_in (valued highs.old) next (drop 2 s.now)))
        records.new lows.new highs.new }
{
    let mut number = next + nodes::inners(&s[2..]);
    for i in (1..s.len() / 2).rev() {
        let at = 2 * i;
        if s[at] != 0 {
            number -= 1;
            if !fill_node(lows, highs, records, s, inner_at(s, at, number), kind) {
                return false;
            }
        }
    }
    true
}
