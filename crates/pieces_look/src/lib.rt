// Looks in small boxes: what they mark, and what insertions with other marks answer. Definitions and laws: there is no code.

#![tactic(auto)]
