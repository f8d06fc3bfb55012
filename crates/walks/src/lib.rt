// Walks over edges: the definition of what is reached, and its laws. No code.
#![tactic(auto)]
