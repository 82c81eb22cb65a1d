// Laws only. Document 02 §11: compared with the old layout, every sequence from an accepted start gives the same cells by their corners, the same neighbours by theirs, and 8 in the same cases.

#![tactic(auto)]
