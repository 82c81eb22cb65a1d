// Starting a mesh in a box with a table of corrections: the call.

#![tactic(auto)]

ghost use Rattle.std.specs.Prelude.{length};
ghost use Rattle.mesh.specs.Tables.{tables};
ghost use Rattle.mesh.specs.Start.{as_started};
ghost use Rattle.corrections.specs.Calls.{Leaves, start_with};

use corrections_tests::too_short;
use mesh::Mesh;
use mesh_start::start as start_mesh;
use mesh_tables::clear;
use refusal::Refusal;

// Starts a mesh in a box, its eight points' corrections at 0.
pub fn start(
    x: u32,
    y: u32,
    z: u32,
    points: &mut [u32],
    corners: &mut [u16],
    neighbours: &mut [u16],
    work: &mut [u16],
    corrections: &mut [i32],
) -> Result<Mesh, Refusal>
    ensures { Leaves (start_with x y z (tables points.old corners.old neighbours.old) corrections.old (length work.old)) work.old
        (as_started result) (tables points.new corners.new neighbours.new) corrections.new work.new }
{
    if too_short(points, corrections) {
        clear(work);
        return Err(Refusal::Short);
    }
    let mesh = start_mesh(x, y, z, points, corners, neighbours, work)?;
    corrections[..24].fill(0);
    Ok(mesh)
}
