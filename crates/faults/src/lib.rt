// What is wrong with the terms of a body.
#![tactic(auto)]

ghost use Rattle.std.specs.Prelude.{◌≡◌, ◌||◌, false, ◌*◌, ◌+◌, ◌/◌, ◌≤◌, leb, length};
ghost use Rattle.program.specs.Program.{terms_of, variables_at};
ghost use Rattle.faults.specs.Faults.{TermFaults, FaultsBelow, faults_number, checked_number};

use program::Refusal;

pub mod by_form;
pub mod divisors;

// Of the refusals 7 to 9, 11 and 12, those that a term or a body meets.
#[derive(Drop)]
pub struct Faults {
    pub form: bool,
    pub range: bool,
    pub variable: bool,
    pub repeated: bool,
    pub negative: bool,
}

impl Faults {
    pub fn none() -> Self
        ensures { (result.form ≡ false) × (result.range ≡ false) × (result.variable ≡ false) × (result.repeated ≡ false) × (result.negative ≡ false) }
    {
        Faults {
            form: false,
            range: false,
            variable: false,
            repeated: false,
            negative: false,
        }
    }

    pub fn with(self, other: Faults) -> Self
        ensures { (result.form ≡ self.form || other.form) × (result.range ≡ self.range || other.range)
            × (result.variable ≡ self.variable || other.variable) × (result.repeated ≡ self.repeated || other.repeated) × (result.negative ≡ self.negative || other.negative) }
    {
        Faults {
            form: self.form | other.form,
            range: self.range | other.range,
            variable: self.variable | other.variable,
            repeated: self.repeated | other.repeated,
            negative: self.negative | other.negative,
        }
    }

    // The first that is wrong, with a wrong term count in its place.
    pub fn first(self, count: bool) -> Result<(), Refusal>
        ensures { checked_number result ≡ faults_number self count }
    {
        if self.form {
            return Err(Refusal::WrongForm);
        }
        if self.range {
            return Err(Refusal::OutsideRange);
        }
        if self.variable {
            return Err(Refusal::Undeclared);
        }
        if count {
            return Err(Refusal::WrongCount);
        }
        if self.repeated {
            return Err(Refusal::VariableTwice);
        }
        if self.negative {
            return Err(Refusal::NegativeProduct);
        }
        Ok(())
    }
}

// Whether a variable is not declared.
pub fn is_undeclared(variables: usize, x: u8) -> bool
    ensures { result ≡ leb variables x }
{
    variables <= format::wide(x)
}

// What is wrong with term i of a body of this form.
pub fn term_faults(file: &[u8], variables: usize, body: &[u8], form: u8, i: usize) -> Faults
    requires { (8 * variables ≤ length file.now) × (4 * i + 4 ≤ length body.now) }
    ensures { TermFaults (variables_at file.now variables) form (terms_of body.now) i result }
{
    let t = parts::terms::term(body, i);
    Faults {
        form: by_form::is_wrong_term(t, form, i),
        range: by_form::is_outside_term(t, form, i),
        variable: is_undeclared(variables, t.variable),
        repeated: by_form::is_repeated(body, i),
        negative: by_form::is_negative(file, variables, form, t),
    }
}

// What is wrong with some term of a body of this form.
pub fn body_faults(file: &[u8], variables: usize, body: &[u8], form: u8) -> Faults
    requires { 8 * variables ≤ length file.now }
    ensures { FaultsBelow (variables_at file.now variables) form (terms_of body.now) (length body.now / 4) result }
{
    let n = body.len() / 4;
    let mut all = Faults::none();
    for i in 0..n {
        let one = term_faults(file, variables, body, form, i);
        all = all.with(one);
    }
    all
}
