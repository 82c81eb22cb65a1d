// The mesh record, its lent tables, what a mesh is, and what a start leaves. Definitions and laws: the code is in the crates mesh_*.

#![tactic(auto)]

// No neighbour; each corner of a freed entry; the end of the chain. C has it as GANTRY_NONE.
pub const NONE: u16 = 65535;

// Sides, point count, cell count, the chain's first number (65,535 where it is empty) and how many entries of the cell tables are in
// use; C has it as gantry_mesh (include/gantry.h), whose layout is fixed.
#[repr(C)]
#[derive(Clone, Copy)]
pub struct Mesh {
    pub x: u32,
    pub y: u32,
    pub z: u32,
    pub points: u32,
    pub cells: u32,
    pub chain: u32,
    pub used: u32,
}

// Four corner numbers and four neighbour numbers; 65,535 is no neighbour.
#[derive(Clone, Copy)]
pub struct Cell {
    pub corners: [u16; 4],
    pub neighbours: [u16; 4],
}
