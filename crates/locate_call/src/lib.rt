// Locating a position.

#![tactic(auto)]

ghost use Rattle.std.specs.Prelude.{◌≡◌, length};
ghost use Rattle.mesh.specs.Tables.{tables_before, cleared};
ghost use Rattle.locate.specs.Locate.{as_located, locate_call};

use geometry::Position;
use geometry::volume::in_box;
use locate_first::first_holder;
use mesh::Mesh;
use mesh_check::test_mesh;
use mesh_tables::clear;
use refusal::Refusal;

// Of the cells that hold the position, the one whose four corner numbers, sorted upward, come first in order.
pub fn locate(
    mesh: Mesh,
    points: &[u32],
    corners: &[u16],
    neighbours: &[u16],
    work: &mut [u16],
    q: Position,
) -> Result<u32, Refusal>
    ensures { (as_located result ≡ locate_call mesh (tables_before points corners neighbours) (length work.old) q)
        × (work.new ≡ cleared work.old) }
{
    clear(work);
    test_mesh(mesh, points, corners, neighbours, work.len(), false)?;
    if !in_box(mesh.x, mesh.y, mesh.z, q) {
        return Err(Refusal::Outside);
    }
    let first = first_holder(points, corners, mesh.points as usize, mesh.used as usize, q);
    let cell = first.ok_or(Refusal::Unheld)?;
    Ok(cell as u32)
}
