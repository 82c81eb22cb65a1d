// A head parked on a face while a node goes in elsewhere. Definitions and laws: there is no code.

#![tactic(auto)]
