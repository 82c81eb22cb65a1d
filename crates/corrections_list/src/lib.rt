// Inserting a list of nodes: the call.

#![tactic(auto)]

ghost use Rattle.std.specs.Prelude.{Ok, ◌≡◌, ◌*◌, ◌≤◌, length};
ghost use Rattle.mesh.specs.Tables.{tables};
ghost use Rattle.insertion.specs.Listed.{as_listed};
ghost use Rattle.corrections.specs.Calls.{Leaves, list_with};
ghost use Rattle.corrections.specs.Inner.{refused_nodes};

use corrections_nodes::insert_nodes;
use corrections_tests::{early_refusal, test_tables};
use corrections_value::out_of_range;
use insertion::Insertions;
use mesh::Mesh;
use mesh_tables::{clear, point_at};
use refusal::Refusal;

// Over a table with a number out of range: an empty list ends, another stops at its first node.
fn refuse_nodes(mesh: Mesh, points: &[u32], nodes: &[u32]) -> Insertions<Refusal>
    requires { (mesh.points ≤ 1024) × (3 * mesh.points ≤ length points.now) }
    ensures { as_listed (Ok result) ≡ refused_nodes mesh points.now nodes.now }
{
    let stopped = if nodes.len() < 3 {
        None
    } else {
        Some(early_refusal(mesh, points, point_at(nodes, 0)))
    };
    Insertions {
        mesh,
        accepted: 0,
        stopped,
    }
}

// Inserts a list of nodes by the sphere test, three numbers a node.
pub fn insert_list(
    mesh: Mesh,
    points: &mut [u32],
    corners: &mut [u16],
    neighbours: &mut [u16],
    work: &mut [u16],
    corrections: &mut [i32],
    nodes: &[u32],
) -> Result<Insertions<Refusal>, Refusal>
    ensures { Leaves (list_with mesh (tables points.old corners.old neighbours.old) corrections.old (length work.old) nodes.now) work.old
        (as_listed result) (tables points.new corners.new neighbours.new) corrections.new work.new }
{
    clear(work);
    let room = work.len();
    test_tables(mesh, points, corners, neighbours, corrections, room, false)?;
    if out_of_range(corrections, mesh.points as usize) {
        Ok(refuse_nodes(mesh, points, nodes))
    } else {
        Ok(insert_nodes(mesh, points, corners, neighbours, corrections, room, nodes))
    }
}
