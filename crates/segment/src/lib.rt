// The cells that a segment touches. Definitions and laws: the code is in the crates segment_*.

#![tactic(auto)]

// A product in two words: high counts units of 2^52, low the rest.
#[derive(Clone, Copy)]
pub struct Product {
    pub high: u64,
    pub low: u64,
}
