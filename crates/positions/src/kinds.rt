// The kinds of the variables that the reduct keeps at the plain terms of a rule.
ghost use Rattle.std.specs.Prelude.{◌≡◌, cond, true, false, ◌&&◌, eqb};
ghost use Rattle.program.specs.Program.{term_form};
ghost use Rattle.program.specs.Variables.{is_founded};
ghost use Rattle.program.specs.Directions.{is_mixed};
ghost use Rattle.positions.specs.Kinds.{direction_of, plain_kind, kind_in, kept_by};

use program::{Term, Variable};

// Of a term whose number is not negative, and of one whose number is; 0 where none is kept.
#[derive(Clone, Copy)]
pub struct Kinds {
    pub up: u32,
    pub down: u32,
}

// The first of two where the test says so, else the second.
fn chosen(test: bool, a: u32, b: u32) -> u32
    ensures { result ≡ cond test a b }
{
    if test { a } else { b }
}

// Those of a rule of this form, other than 5, whose head is h.
pub fn kinds_of(form: u8, h: Variable) -> Kinds
    ensures { result ≡ record { up = plain_kind h (term_form form) false; down = plain_kind h (term_form form) true } }
{
    let above = h.is_from_above();
    let sum = (form == 1) | (form == 8);
    let rises = sum | (form == 7) | ((2 <= form) & (form <= 4));
    let up = chosen(rises, chosen(above, 2, 1), 0);
    Kinds {
        up,
        down: chosen(sum, chosen(above, 1, 2), up),
    }
}

// The kind that is kept at a term: the op of a literal; a plain term's goes by the sign of its number.
pub fn kind_of(kinds: Kinds, t: Term) -> u32
    ensures { result ≡ kind_in kinds.up kinds.down t }
{
    let plain = chosen(t.number < 0, kinds.down, kinds.up);
    chosen(t.op == 0, plain, t.op as u32)
}

// Whether a term pushes neither way, by the kind that is kept there.
pub fn is_mixed(kind: u32) -> bool
    ensures { result ≡ is_mixed (direction_of kind) }
{
    (kind != 1) & (kind != 2)
}

// Whether x is kept where this kind is.
pub fn keeps(kind: u32, x: Variable) -> bool
    ensures { result ≡ (eqb x.kind kind && is_founded x) }
{
    let same = x.kind as u32 == kind;
    let founded = x.is_founded();
    same & founded
}

// Whether the variable x of a term is kept.
pub fn is_kept(kinds: Kinds, x: Variable, t: Term) -> bool
    ensures { result ≡ kept_by kinds.up kinds.down x t }
{
    keeps(kind_of(kinds, t), x)
}
