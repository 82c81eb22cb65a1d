// Wrong ways to correct a cavity, each told from the right one by a separating history. Definitions and laws: there is no code.

#![tactic(auto)]
