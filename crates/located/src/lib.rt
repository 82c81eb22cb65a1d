// Laws only. Document 02 §3: one cell for a position on a face, whatever the cells' numbers, and the same one after an insertion elsewhere.

#![tactic(auto)]
