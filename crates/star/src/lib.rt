// The star of a cavity: new cells, neighbours and order. Definitions and laws: the code is in the crates star_*.

#![tactic(auto)]

// Turning round an edge: in a cell, come in by one face and about to leave by another.
#[derive(Clone, Copy)]
pub struct Circulator {
    pub cell: usize,
    pub entry: usize,
    pub exit: usize,
}

// What the new cells' numbers leave: the chain's first number, and how many entries are in use.
#[derive(Clone, Copy)]
pub struct Left {
    pub chain: u16,
    pub used: usize,
}
