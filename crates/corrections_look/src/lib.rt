// Looking at a node: the call. It finds the cavity as an insertion does, and writes no table.

#![tactic(auto)]

ghost use Rattle.std.specs.Prelude.{true, ◌≡◌, length};
ghost use Rattle.mesh.specs.Check.{is_mesh};
ghost use Rattle.mesh.specs.Tables.{tables_in, tables_before, tables_after};
ghost use Rattle.insertion.specs.Looked.{as_looked};
ghost use Rattle.insertion.specs.Inner.{NodeLooked};
ghost use Rattle.corrections.specs.Calls.{look_with, LookLeft};

use cavity::Node;
use corrections_tests::{early_refusal, test_tables};
use corrections_value::out_of_range;
use geometry::Position;
use insertion::Report;
use insertion_find::find;
use insertion_marks::write_marks;
use insertion_report::report;
use mesh::Mesh;
use mesh_tables::clear;
use refusal::Refusal;

// A look after tests 1 to 3. No mark is written before every test has passed.
fn look_node(
    mesh: Mesh,
    points: &[u32],
    corners: &[u16],
    neighbours: &[u16],
    work: usize,
    marks: &mut [u8],
    q: Position,
) -> Result<Report, Refusal>
    requires { is_mesh mesh (tables_in points corners neighbours) work ≡ true }
    ensures { NodeLooked mesh (tables_before points corners neighbours) work q marks.old (as_looked result) (tables_after points corners neighbours) marks.new }
{
    let node = Node {
        position: q,
        points: mesh.points as usize,
        cells: mesh.cells as usize,
        used: mesh.used as usize,
        work,
        handed: false,
    };
    let none = [0u8; 1];
    let mut state = [0u8; 4096];
    let mut list = [0u16; 4096];
    let mut faces = [0u8; 4096];
    let mut denied = [0u16; 4096];
    let mut exposed = [0u8; 1024];
    let mut ranks = [0u16; 4096];
    let replacement = find(
        mesh,
        points,
        corners,
        neighbours,
        &none,
        node,
        &mut state,
        &mut list,
        &mut faces,
        &mut denied,
        &mut exposed,
        &mut ranks,
    )?;
    if marks.len() < node.used {
        return Err(Refusal::NoPlace);
    }
    write_marks(node.used, &state, marks);
    Ok(report(mesh, replacement))
}

// Looks at the insertion of a node by the sphere test: its report, and a mark for each entry in use, 1 where its cell would be replaced.
pub fn look(
    mesh: Mesh,
    points: &[u32],
    corners: &[u16],
    neighbours: &[u16],
    work: &mut [u16],
    corrections: &[i32],
    marks: &mut [u8],
    q: Position,
) -> Result<Report, Refusal>
    ensures { LookLeft (look_with mesh (tables_before points corners neighbours) corrections.now (length work.old) q marks.old) work.old
        (as_looked result) (tables_after points corners neighbours) work.new marks.new }
{
    clear(work);
    let room = work.len();
    test_tables(mesh, points, corners, neighbours, corrections, room, false)?;
    if out_of_range(corrections, mesh.points as usize) {
        return Err(early_refusal(mesh, points, q));
    }
    look_node(mesh, points, corners, neighbours, room, marks, q)
}
