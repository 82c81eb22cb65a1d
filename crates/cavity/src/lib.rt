// The cavity of a new point: the cells that hold it, the growth by answers, and the visibility correction. Definitions and laws: the
// code is in the crates cavity_*.

#![tactic(auto)]

use geometry::Position;

// The state of an entry in the cavity: of a cell that holds the node, and of one that joined by its answer. Others have 0.
pub const BASE: u8 = 2;

pub const GROWN: u8 = 1;

// A face's kind, with the node strictly beyond it; a coplanar face, or one between two cells of the cavity, has 0. The code of a cell adds up
// the kinds of its faces, each times a power of 2: a hidden face makes it HIDDEN or more.
pub const VISIBLE: u8 = 1;

pub const HIDDEN: u8 = 16;

// A node to insert: where it lies, how many points and cells the mesh has and how many entries are in use, how long the work area is,
// and whether answers are handed in.
#[derive(Clone, Copy)]
pub struct Node {
    pub position: Position,
    pub points: usize,
    pub cells: usize,
    pub used: usize,
    pub work: usize,
    pub handed: bool,
}

// A cell's answer, and its T.
#[derive(Clone, Copy)]
pub struct Answer {
    pub yes: bool,
    pub t: f64,
}

// The cells gathered so far: how many, their least T, and the first cell that has it.
#[derive(Clone, Copy)]
pub struct Gathered {
    pub size: usize,
    pub least: f64,
    pub at: usize,
}

// A cavity's size before and after correction, its least T before, and a cell of its base; no size where no cell holds the node.
#[derive(Clone, Copy)]
pub struct Extent {
    pub before: usize,
    pub after: usize,
    pub least: f64,
    pub holder: usize,
}
