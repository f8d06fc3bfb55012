// The nodes of trees as they stand in their bytes. No code.
#![tactic(auto)]
