// Inserting one node: the calls.

#![tactic(auto)]

ghost use Rattle.std.specs.Prelude.{length};
ghost use Rattle.mesh.specs.Tables.{tables};
ghost use Rattle.cavity.specs.Answers.{sphere, handed};
ghost use Rattle.insertion.specs.Inserted.{as_inserted};
ghost use Rattle.corrections.specs.Calls.{Leaves, insert_with};

use corrections_insert::insert_node;
use corrections_tests::test_tables;
use geometry::Position;
use insertion::Insertion;
use mesh::Mesh;
use mesh_tables::clear;
use refusal::Refusal;

// Inserts one node by the sphere test.
pub fn insert(
    mesh: Mesh,
    points: &mut [u32],
    corners: &mut [u16],
    neighbours: &mut [u16],
    work: &mut [u16],
    corrections: &mut [i32],
    q: Position,
) -> Result<Insertion, Refusal>
    ensures { Leaves (insert_with mesh (tables points.old corners.old neighbours.old) corrections.old (length work.old) q sphere) work.old
        (as_inserted result) (tables points.new corners.new neighbours.new) corrections.new work.new }
{
    clear(work);
    let size = work.len();
    test_tables(mesh, points, corners, neighbours, corrections, size, false)?;
    insert_node(
        mesh,
        points,
        corners,
        neighbours,
        corrections,
        size,
        None,
        None,
        q,
    )
}

// Inserts one node by answers handed in, one byte for each entry in use; nonzero is yes.
pub fn insert_answers(
    mesh: Mesh,
    points: &mut [u32],
    corners: &mut [u16],
    neighbours: &mut [u16],
    work: &mut [u16],
    corrections: &mut [i32],
    answers: &[u8],
    q: Position,
) -> Result<Insertion, Refusal>
    ensures { Leaves (insert_with mesh (tables points.old corners.old neighbours.old) corrections.old (length work.old) q (handed answers.now)) work.old
        (as_inserted result) (tables points.new corners.new neighbours.new) corrections.new work.new }
{
    clear(work);
    let size = work.len();
    let fewer = answers.len() < mesh.used as usize;
    test_tables(mesh, points, corners, neighbours, corrections, size, fewer)?;
    insert_node(
        mesh,
        points,
        corners,
        neighbours,
        corrections,
        size,
        Some(answers),
        None,
        q,
    )
}
