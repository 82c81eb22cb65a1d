// A node file through a mesh and back: laws only.

#![tactic(auto)]
