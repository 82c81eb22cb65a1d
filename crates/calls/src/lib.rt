// Condition 3 over whole lists of calls. Definitions and laws: there is no code.

#![tactic(auto)]
