// Two node files in one. Definitions and laws: the code is in the crates merging_*.

#![tactic(auto)]
