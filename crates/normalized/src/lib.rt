// What the calls say of a file and of what normalize writes for it; small files and what it writes for them, and wrong programs that they refute. No code.
#![tactic(auto)]
