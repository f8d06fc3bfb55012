// The sample plans of document 01 that are marked *, plans of document 02, and wrong calls that they refute. No code.
#![tactic(auto)]
