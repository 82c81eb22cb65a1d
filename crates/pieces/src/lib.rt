// Document 01's marked pieces and the separating histories, by computation. Definitions and laws: there is no code.

#![tactic(auto)]
