// Capacities of the lent tables, and which sides and lengths are legal.

#![tactic(auto)]

ghost use Rattle.std.specs.Prelude.{◌≡◌, min};
ghost use Rattle.mesh.specs.Check.{legal_side, legal_box};
ghost use Rattle.mesh.specs.Inner.{point_room, cell_room, short_lengths};

use geometry::volume::MAX_SIDE;

const MAX_POINTS: usize = 1024;

const MAX_CELLS: usize = 4096;

pub fn point_capacity(points: usize) -> usize
    ensures { result ≡ point_room points }
{
    (points / 3).min(MAX_POINTS)
}

pub fn cell_capacity(corners: usize, neighbours: usize, work: usize) -> usize
    ensures { result ≡ cell_room corners neighbours work }
{
    (corners / 4)
        .min(neighbours / 4)
        .min(work / 3)
        .min(MAX_CELLS)
}

pub fn legal_side(s: u32) -> bool
    ensures { result ≡ legal_side s }
{
    (1..=MAX_SIDE).contains(&s)
}

pub fn legal_box(x: u32, y: u32, z: u32) -> bool
    ensures { result ≡ legal_box x y z }
{
    legal_side(x) && legal_side(y) && legal_side(z)
}

// A point capacity below 8 or a cell capacity below 6.
#[tactic(auto, unfolding(mesh::specs::Inner::short_lengths))]
pub fn too_short(points: usize, corners: usize, neighbours: usize, work: usize) -> bool
    ensures { result ≡ short_lengths points corners neighbours work }
{
    point_capacity(points) < 8 || cell_capacity(corners, neighbours, work) < 6
}
