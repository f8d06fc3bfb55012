// Small nested files, what flatten answers and writes for them, and wrong programs that they refute; nested plans that are stable, and some that are not. No code.
#![tactic(auto)]
