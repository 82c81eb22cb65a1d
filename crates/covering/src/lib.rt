// Laws only. Document 02 §9: every place of the box is held by a cell, and none lies strictly inside two; and what holds of the cells that hold one place.

#![tactic(auto)]
