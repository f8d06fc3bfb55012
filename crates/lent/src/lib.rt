// A file with lent ranges: how far each founded variable can still be lifted, and what the call bounds answers. The definitions stand in specs/, the laws
// about them in proofs/.
#![tactic(auto)]
