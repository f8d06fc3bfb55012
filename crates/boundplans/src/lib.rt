// Small files with lent ranges, what bounds answers and writes for them, and wrong programs that they refute. No code.
#![tactic(auto)]
