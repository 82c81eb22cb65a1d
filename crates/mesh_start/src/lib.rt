// Starting a mesh in a box.

#![tactic(auto)]

ghost use Rattle.std.specs.Prelude.{◌≡◌, ◌≤◌, ◌<◌, length};
ghost use Rattle.refusal.specs.Refusal.{refused_by};
ghost use Rattle.mesh.specs.Tables.{tables};
ghost use Rattle.mesh.specs.Start.{over, start_points, start_corners, start_neighbours, as_started, StartLeaves};
ghost use Rattle.mesh.specs.Inner.{cell_at, start_refusal_of};

use mesh::{Cell, Mesh, NONE};
use mesh_sizes::{legal_box, too_short};
use mesh_tables::{clear, store};
use refusal::Refusal;

// The corner numbers of the started box's six cells.
const CELLS: [[u16; 4]; 6] = [
    [0, 1, 3, 7],
    [0, 3, 2, 7],
    [0, 2, 6, 7],
    [0, 6, 4, 7],
    [0, 4, 5, 7],
    [0, 5, 1, 7],
];

fn start_cell(k: usize) -> Cell
    requires { k < 6 }
    ensures { result ≡ cell_at start_corners start_neighbours k }
{
    let next = ((k + 1) % 6) as u16;
    let last = ((k + 5) % 6) as u16;
    Cell {
        corners: CELLS[k],
        neighbours: [NONE, next, last, NONE],
    }
}

fn write_cells(corners: &mut [u16], neighbours: &mut [u16])
    requires { (24 ≤ length corners.old) × (24 ≤ length neighbours.old) }
    ensures { (corners.new ≡ over start_corners corners.old)
        × (neighbours.new ≡ over start_neighbours neighbours.old) }
{
    for k in 0..6 {
        store(corners, neighbours, k, start_cell(k));
    }
}

#[tactic(auto, unfolding(mesh::specs::Start::start_points))]
fn start_points(x: u32, y: u32, z: u32) -> [u32; 24]
    ensures { result ≡ start_points x y z }
{
    [
        0, 0, 0, x, 0, 0, 0, y, 0, x, y, 0, 0, 0, z, x, 0, z, 0, y, z, x, y, z,
    ]
}

// The lengths of the lent tables and of the work area, and the sides.
#[tactic(auto, unfolding(mesh::specs::Inner::start_refusal_of))]
fn test_start(
    x: u32,
    y: u32,
    z: u32,
    points: usize,
    corners: usize,
    neighbours: usize,
    work: usize,
) -> Result<(), Refusal>
    ensures { refused_by result ≡ start_refusal_of x y z points corners neighbours work }
{
    if too_short(points, corners, neighbours, work) {
        Err(Refusal::Short)
    } else if !legal_box(x, y, z) {
        Err(Refusal::Box)
    } else {
        Ok(())
    }
}

// Starts a mesh in the box x, y, z: the eight corners and six cells.
#[tactic(auto, using(mesh::proofs::Outcomes::start_fits), unfolding(mesh::specs::Start::start_points))]
pub fn start(
    x: u32,
    y: u32,
    z: u32,
    points: &mut [u32],
    corners: &mut [u16],
    neighbours: &mut [u16],
    work: &mut [u16],
) -> Result<Mesh, Refusal>
    ensures { StartLeaves x y z (tables points.old corners.old neighbours.old) work.old
        (as_started result) (tables points.new corners.new neighbours.new) work.new }
{
    clear(work);
    test_start(
        x,
        y,
        z,
        points.len(),
        corners.len(),
        neighbours.len(),
        work.len(),
    )?;
    points[..24].copy_from_slice(&start_points(x, y, z));
    write_cells(corners, neighbours);
    Ok(Mesh {
        x,
        y,
        z,
        points: 8,
        cells: 6,
        chain: u32::from(NONE),
        used: 6,
    })
}
