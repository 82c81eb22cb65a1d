// Inserting one node with the marks of a look: the call.

#![tactic(auto)]

ghost use Rattle.std.specs.Prelude.{length};
ghost use Rattle.mesh.specs.Tables.{tables};
ghost use Rattle.insertion.specs.Inserted.{as_inserted};
ghost use Rattle.corrections.specs.Calls.{Leaves, marked_with};

use corrections_insert::insert_node;
use corrections_tests::test_tables;
use geometry::Position;
use insertion::Insertion;
use mesh::Mesh;
use mesh_tables::clear;
use refusal::Refusal;

// Inserts one node by the sphere test, if a look would now give these marks.
pub fn insert_marked(
    mesh: Mesh,
    points: &mut [u32],
    corners: &mut [u16],
    neighbours: &mut [u16],
    work: &mut [u16],
    corrections: &mut [i32],
    marks: &[u8],
    q: Position,
) -> Result<Insertion, Refusal>
    ensures { Leaves (marked_with mesh (tables points.old corners.old neighbours.old) corrections.old (length work.old) q marks.now) work.old
        (as_inserted result) (tables points.new corners.new neighbours.new) corrections.new work.new }
{
    clear(work);
    let size = work.len();
    test_tables(mesh, points, corners, neighbours, corrections, size, false)?;
    insert_node(
        mesh,
        points,
        corners,
        neighbours,
        corrections,
        size,
        None,
        Some(marks),
        q,
    )
}
