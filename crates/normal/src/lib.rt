// The normal form of a program, and what the call normalize answers. The definitions stand in specs/, the laws about them in proofs/.
#![tactic(auto)]
