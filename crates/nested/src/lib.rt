// Nested programs: a plain program and trees; their meaning, and the plain program that they are flattened to. The definitions stand in specs/, the laws about them in proofs/.
#![tactic(auto)]
