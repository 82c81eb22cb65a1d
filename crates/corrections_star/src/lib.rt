// The second stage of a node with its numbers in the table of corrections: they are worked out from a cell of the base before it is replaced.

#![tactic(auto)]

ghost use Rattle.std.specs.Prelude.{Ok, List, ◌≡◌, ℕ, ◌*◌, ◌≤◌, length};
ghost use Rattle.mesh.specs.Tables.{point_capacity, tables};
ghost use Rattle.cavity.specs.Answers.{answers_of};
ghost use Rattle.cavity.specs.Inner.Growth.{Empty};
ghost use Rattle.insertion.specs.Inserted.{as_inserted};
ghost use Rattle.insertion.specs.Inner.{found_of, Starable, SomeStarable, Starred};
ghost use Rattle.corrections.specs.Calls.{with_node};
ghost use Rattle.corrections.specs.Inner.{Standing};

use cavity::Node;
use corrections_value::{correction_in, put_correction};
use insertion::{Insertion, Replacement};
use insertion_star::insert_found;
use mesh::Mesh;

pub fn insert_numbered(
    mesh: Mesh,
    points: &mut [u32],
    corners: &mut [u16],
    neighbours: &mut [u16],
    corrections: &mut [i32],
    node: Node,
    replacement: Replacement,
    state: &mut [u8],
    list: &[u16],
    faces: &[u8],
    ranks: &[u16],
    slots: &mut [u16],
) -> Insertion
    requires { SomeStarable mesh (tables points.old corners.old neighbours.old) node state.old list.now faces.now ranks.now (found_of replacement)
        × Standing mesh.points corrections.old × (3 * point_capacity (tables points.old corners.old neighbours.old) ≤ length corrections.old)
        × (length slots.old ≡ 4096) }
    ensures { ((bytes : List ℕ) → Starable mesh (tables points.old corners.old neighbours.old) bytes node state.old list.now faces.now ranks.now (found_of replacement) →
        Starred mesh (tables points.old corners.old neighbours.old) node.position (answers_of node.handed bytes) (as_inserted (Ok result)) (tables points.new corners.new neighbours.new)
        × (corrections.new ≡ with_node mesh (tables points.old corners.old neighbours.old) corrections.old node.position))
        × Empty state.new list.now }
{
    let correction = correction_in(
        points,
        corners,
        corrections,
        replacement.extent.holder,
        node.position,
    );
    let insertion = insert_found(
        mesh,
        points,
        corners,
        neighbours,
        node,
        replacement,
        state,
        list,
        faces,
        ranks,
        slots,
    );
    put_correction(corrections, node.points, correction);
    insertion
}
