// Trees: their bytes, leaves, inner nodes and levels. No code.
#![tactic(auto)]
