// The listing of a node file, as text: what the program `listing` prints. Definitions and laws: the code is in the crates lines_*.

#![tactic(auto)]
