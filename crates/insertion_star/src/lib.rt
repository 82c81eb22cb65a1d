// The second stage of a node: the cavity that its tests found is replaced by its star.

#![tactic(auto)]

ghost use Rattle.std.specs.Prelude.{Ok, List, ◌≡◌, ℕ, length};
ghost use Rattle.mesh.specs.Tables.{tables};
ghost use Rattle.cavity.specs.Answers.{answers_of};
ghost use Rattle.cavity.specs.Inner.Growth.{Empty};
ghost use Rattle.insertion.specs.Inserted.{as_inserted};
ghost use Rattle.insertion.specs.Inner.{found_of, Starable, SomeStarable, Starred};

use cavity::Node;
use cavity_find::clear_states;
use insertion::{Insertion, Replacement};
use insertion_report::accepted;
use mesh::Mesh;
use star_numbers::take_slots;
use star_replace::replace_cavity;

// The star, with the record and the report. No state is left.
pub fn insert_found(
    mesh: Mesh,
    points: &mut [u32],
    corners: &mut [u16],
    neighbours: &mut [u16],
    node: Node,
    replacement: Replacement,
    state: &mut [u8],
    list: &[u16],
    faces: &[u8],
    ranks: &[u16],
    slots: &mut [u16],
) -> Insertion
    requires { SomeStarable mesh (tables points.old corners.old neighbours.old) node state.old list.now faces.now ranks.now (found_of replacement) × (length slots.old ≡ 4096) }
    ensures { ((bytes : List ℕ) → Starable mesh (tables points.old corners.old neighbours.old) bytes node state.old list.now faces.now ranks.now (found_of replacement) →
        Starred mesh (tables points.old corners.old neighbours.old) node.position (answers_of node.handed bytes) (as_inserted (Ok result)) (tables points.new corners.new neighbours.new))
        × Empty state.new list.now }
{
    let size = replacement.extent.after;
    let left = take_slots(
        neighbours,
        mesh.chain as u16,
        node.used,
        replacement.made,
        slots,
    );
    let chain = replace_cavity(
        points, corners, neighbours, node, state, list, size, faces, ranks, slots, left.chain,
    );
    clear_states(list, size, state);
    accepted(mesh, replacement, chain, left.used)
}
