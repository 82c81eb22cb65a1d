// Two nodes that lie evenly in a box, by the sphere test alone. Definitions and laws: there is no code.

#![tactic(auto)]
