// Corrections at the points: a position's correction, and the calls that keep, set and read them. Definitions and laws: the code is in the
// crates corrections_*.

#![tactic(auto)]

// Three numbers in steps, one an axis.
#[derive(Clone, Copy)]
pub struct Correction {
    pub x: i32,
    pub y: i32,
    pub z: i32,
}
