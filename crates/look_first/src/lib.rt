// Laws only. Document 02 §6: an insertion with the marks of a look does what was looked at, and with other marks nothing.

#![tactic(auto)]
