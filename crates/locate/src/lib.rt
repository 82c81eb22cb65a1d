// Which cell holds a position, side codes and keys. Definitions and laws: the code is in the crates locate_*.

#![tactic(auto)]

// The cell that comes first so far, and its key.
#[derive(Clone, Copy)]
pub struct Candidate {
    pub cell: usize,
    pub key: u64,
}
