// The mesh check, and the refusals that rest on it.

#![tactic(auto)]

ghost use Rattle.std.specs.Prelude.{[], ◌≡◌, cond, eqb, ◌≤◌, length};
ghost use Rattle.refusal.specs.Refusal.{refused_by};
ghost use Rattle.mesh.specs.Tables.{tables, tables_before, cleared};
ghost use Rattle.mesh.specs.Mesh.{box_corner};
ghost use Rattle.mesh.specs.Check.{box_ok, counts_ok, is_mesh};
ghost use Rattle.mesh.specs.Refusal.{mesh_refusal};

use geometry::Position;
use mesh::Mesh;
use mesh_cells::cells_pass;
use mesh_chain::chain_passes;
use mesh_faces::faces_pass;
use mesh_sizes::{cell_capacity, legal_box, point_capacity, too_short};
use mesh_tables::{clear, point_at, points_in_box};
use refusal::Refusal;

fn at_bit(bit: usize, side: u32) -> u32
    ensures { result ≡ cond (eqb bit 1) side 0 }
{
    if bit == 1 { side } else { 0 }
}

fn box_corner(x: u32, y: u32, z: u32, k: usize) -> Position
    ensures { result ≡ box_corner x y z k }
{
    Position {
        x: at_bit(k % 2, x),
        y: at_bit(k / 2 % 2, y),
        z: at_bit(k / 2 / 2 % 2, z),
    }
}

fn box_corners_pass(x: u32, y: u32, z: u32, points: &[u32]) -> bool
    requires { 24 ≤ length points.now }
    ensures { result ≡ box_ok x y z (tables points.now [] []) }
{
    (0..8).all(|k| point_at(points, k) == box_corner(x, y, z, k))
}

#[tactic(auto, unfolding(mesh::specs::Check::counts_ok))]
fn counts_pass(mesh: Mesh, points: usize, cells: usize) -> bool
    ensures { result ≡ counts_ok mesh.x mesh.y mesh.z points cells mesh.points mesh.used }
{
    points >= 8
        && cells >= 6
        && legal_box(mesh.x, mesh.y, mesh.z)
        && mesh.points >= 8
        && mesh.points as usize <= points
        && mesh.used >= 1
        && mesh.used as usize <= cells
}

// The mesh check, with a work area of this length.
pub fn is_mesh(mesh: Mesh, points: &[u32], corners: &[u16], neighbours: &[u16], work: usize) -> bool
    ensures { result ≡ is_mesh mesh (tables_before points corners neighbours) work }
{
    let room = point_capacity(points.len());
    let cells = cell_capacity(corners.len(), neighbours.len(), work);
    counts_pass(mesh, room, cells)
        && box_corners_pass(mesh.x, mesh.y, mesh.z, points)
        && points_in_box(mesh.x, mesh.y, mesh.z, points, mesh.points)
        && cells_pass(mesh, points, corners)
        && chain_passes(mesh, corners, neighbours)
        && faces_pass(mesh, points, corners, neighbours)
}

// The mesh check: yes or no, for all records and tables.
pub fn check(
    mesh: Mesh,
    points: &[u32],
    corners: &[u16],
    neighbours: &[u16],
    work: &mut [u16],
) -> bool
    ensures { (result ≡ is_mesh mesh (tables_before points corners neighbours) (length work.old))
        × (work.new ≡ cleared work.old) }
{
    clear(work);
    is_mesh(mesh, points, corners, neighbours, work.len())
}

// Tests 1 to 3 of a call on a mesh; fewer says that answers are handed in, and fewer than entries are in use.
pub fn test_mesh(
    mesh: Mesh,
    points: &[u32],
    corners: &[u16],
    neighbours: &[u16],
    work: usize,
    fewer: bool,
) -> Result<(), Refusal>
    ensures { refused_by result ≡ mesh_refusal mesh (tables_before points corners neighbours) work fewer }
{
    if fewer {
        return Err(Refusal::Short);
    }
    if too_short(points.len(), corners.len(), neighbours.len(), work) {
        return Err(Refusal::Short);
    }
    if !legal_box(mesh.x, mesh.y, mesh.z) {
        return Err(Refusal::Box);
    }
    if !is_mesh(mesh, points, corners, neighbours, work) {
        return Err(Refusal::NoMesh);
    }
    Ok(())
}
