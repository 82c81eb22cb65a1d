// Laws only. Document 02 §2: by the exact sphere test, no point of the mesh lies strictly inside any cell's sphere.

#![tactic(auto)]
