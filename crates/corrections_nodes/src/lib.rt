// The nodes of a list after tests 1 to 3, over a table of corrections in range.

#![tactic(auto)]

ghost use Rattle.std.specs.Prelude.{Ok, true, ◌≡◌, ◌*◌, ◌≤◌, length};
ghost use Rattle.mesh.specs.Check.{is_mesh};
ghost use Rattle.mesh.specs.Tables.{point_capacity, tables};
ghost use Rattle.insertion.specs.Listed.{as_listed};
ghost use Rattle.corrections.specs.Inner.{Standing, NodesKeep};

use corrections_node::attempt_node;
use insertion::Insertions;
use mesh::Mesh;
use mesh_tables::point_at;
use refusal::Refusal;

// The nodes one by one, up to the first that is refused. Mesh and corrections are not checked again: an accepted node leaves a mesh, and all
// numbers in range. No array is cleared between nodes.
pub fn insert_nodes(
    mesh: Mesh,
    points: &mut [u32],
    corners: &mut [u16],
    neighbours: &mut [u16],
    corrections: &mut [i32],
    work: usize,
    nodes: &[u32],
) -> Insertions<Refusal>
    requires { (is_mesh mesh (tables points.old corners.old neighbours.old) work ≡ true) × Standing mesh.points corrections.old
        × (3 * point_capacity (tables points.old corners.old neighbours.old) ≤ length corrections.old) }
    ensures { NodesKeep mesh (tables points.old corners.old neighbours.old) corrections.old work nodes.now
        (as_listed (Ok result)) (tables points.new corners.new neighbours.new) corrections.new }
{
    let mut state = [0u8; 4096];
    let mut list = [0u16; 4096];
    let mut faces = [0u8; 4096];
    let mut denied = [0u16; 4096];
    let mut exposed = [0u8; 1024];
    let mut ranks = [0u16; 4096];
    let mut slots = [0u16; 4096];
    let count = nodes.len() / 3;
    let mut now = mesh;
    for i in 0..count {
        match attempt_node(
            now,
            points,
            corners,
            neighbours,
            corrections,
            work,
            None,
            None,
            point_at(nodes, i),
            &mut state,
            &mut list,
            &mut faces,
            &mut denied,
            &mut exposed,
            &mut ranks,
            &mut slots,
        ) {
            Ok(insertion) => now = insertion.mesh,
            Err(refusal) => {
                return Insertions {
                    mesh: now,
                    accepted: i as u32,
                    stopped: Some(refusal),
                };
            }
        }
    }
    Insertions {
        mesh: now,
        accepted: count as u32,
        stopped: None,
    }
}
