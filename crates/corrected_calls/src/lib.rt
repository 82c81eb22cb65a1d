// Condition 3 and the corrections' ranges over whole lists of calls. Definitions and laws: there is no code.

#![tactic(auto)]
