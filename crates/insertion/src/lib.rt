// Inserting nodes: refusals, report, record and tables. Definitions and laws: the code is in the crates insertion_*.

#![tactic(auto)]

use cavity::Extent;
use mesh::Mesh;

// Point number, cavity size before and after correction, cells made, and the least T over the cavity before correction.
#[derive(Clone, Copy)]
pub struct Report {
    pub point: u32,
    pub before: u32,
    pub after: u32,
    pub made: u32,
    pub least: f64,
}

// The record with the node, and the report.
#[derive(Clone, Copy)]
pub struct Insertion {
    pub mesh: Mesh,
    pub report: Report,
}

// The record after a list of nodes, how many went in, and why the next one did not, where the list stopped: R is a refusal, or its number.
#[derive(Clone, Copy)]
pub struct Insertions<R> {
    pub mesh: Mesh,
    pub accepted: u32,
    pub stopped: Option<R>,
}

// What takes place where tests 4 to 8 let a node pass: the extent of its cavity, and how many cells its star makes.
#[derive(Clone, Copy)]
pub struct Replacement {
    pub extent: Extent,
    pub made: usize,
}
