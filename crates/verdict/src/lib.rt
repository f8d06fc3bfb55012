// What the check answers, and the mission's three demands. The definitions stand in specs/, the laws about them in proofs/.
#![tactic(auto)]

// What the call check answers where it is not turned down.
#[derive(Drop)]
pub enum Verdict {
    Range(usize),
    Rule(usize),
    Constraint(usize),
    Unfounded(usize, usize),
    Stable,
}
