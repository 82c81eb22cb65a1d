// Tests 4 to 8 of a node. Nothing of the mesh is written.

#![tactic(auto)]

ghost use Rattle.mesh.specs.Tables.{tables_in, tables_before};
ghost use Rattle.insertion.specs.Inner.{as_found, Scratch, NodeOf, Tested};

use cavity::Node;
use cavity_find::find_cavity;
use insertion::Replacement;
use insertion_tests::{point_tests, star_room};
use locate_holding::side_codes;
use mesh::Mesh;
use refusal::Refusal;

// Tests 4 to 8. Where none refuses, the node's cavity is found, its cells listed by rising numbers, and the cells of its star ranked.
pub fn find(
    mesh: Mesh,
    points: &[u32],
    corners: &[u16],
    neighbours: &[u16],
    answers: &[u8],
    node: Node,
    state: &mut [u8],
    list: &mut [u16],
    faces: &mut [u8],
    denied: &mut [u16],
    exposed: &mut [u8],
    ranks: &mut [u16],
) -> Result<Replacement, Refusal>
    requires { NodeOf mesh (tables_in points corners neighbours) answers.now node
        × Scratch mesh.points state.old list.old faces.old denied.old exposed.old ranks.old }
    ensures { Tested mesh (tables_before points corners neighbours) answers.now node
        state.new list.new faces.new denied.new ranks.new (as_found result) }
{
    let codes = side_codes(points, node.points, node.position);
    point_tests(mesh, points, &codes, node.position)?;
    let extent = find_cavity(
        points, corners, neighbours, answers, node, &codes, state, list, faces, denied, exposed,
    );
    if extent.before == 0 {
        return Err(Refusal::Unheld);
    }
    star_room(
        points, corners, neighbours, node, extent, state, list, faces, ranks,
    )
    .or(Err(Refusal::CellsFull))
}
