// Node files. A note of any bytes, then records of three numbers, then a trailer of five: the sides, the count, and the distance in
// bytes from the trailer's start back to the first record. Numbers are unsigned 32-bit, low byte first. Definitions and laws: the code is in
// the crates nodefile_*.

#![tactic(auto)]

// Sides and node count.
#[derive(Clone, Copy)]
pub struct Header {
    pub x: u32,
    pub y: u32,
    pub z: u32,
    pub count: u32,
}
