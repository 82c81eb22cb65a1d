// A node's second stage: where marks are asked for, only if they are those of a look.

#![tactic(auto)]

ghost use Rattle.std.specs.Prelude.{is_some, List, ◌≡◌, ℕ, ◌*◌, ◌≤◌, length};
ghost use Rattle.refusal.specs.Refusal.{refused_by};
ghost use Rattle.mesh.specs.Tables.{point_capacity, tables};
ghost use Rattle.cavity.specs.Answers.{answers_of};
ghost use Rattle.cavity.specs.Inner.Growth.{Empty};
ghost use Rattle.insertion.specs.Inner.{found_of, as_attempt, Starable, SomeStarable};
ghost use Rattle.insertion_marks.specs.Given.{given};
ghost use Rattle.corrections.specs.Inner.{Standing, AttemptKeeps};

use cavity::Node;
use corrections_star::insert_numbered;
use insertion::{Insertion, Replacement};
use insertion_marks::marks_allow;
use mesh::Mesh;
use refusal::Refusal;

pub fn insert_allowed(
    mesh: Mesh,
    points: &mut [u32],
    corners: &mut [u16],
    neighbours: &mut [u16],
    corrections: &mut [i32],
    node: Node,
    replacement: Replacement,
    marks: Option<&[u8]>,
    state: &mut [u8],
    list: &[u16],
    faces: &[u8],
    ranks: &[u16],
    slots: &mut [u16],
) -> Result<Insertion, Refusal>
    requires { SomeStarable mesh (tables points.old corners.old neighbours.old) node state.old list.now faces.now ranks.now (found_of replacement)
        × Standing mesh.points corrections.old × (3 * point_capacity (tables points.old corners.old neighbours.old) ≤ length corrections.old)
        × (length slots.old ≡ 4096) }
    ensures { ((bytes : List ℕ) → Starable mesh (tables points.old corners.old neighbours.old) bytes node state.old list.now faces.now ranks.now (found_of replacement) →
        AttemptKeeps (is_some marks.entry) (given marks.entry) mesh (tables points.old corners.old neighbours.old) corrections.old node.work node.position (answers_of node.handed bytes)
        (as_attempt result) (tables points.new corners.new neighbours.new) corrections.new)
        × (refused_by result ≡ 0 → Empty state.new list.now) }
{
    if !marks_allow(marks, node.used, state) {
        return Err(Refusal::OtherMarks);
    }
    Ok(insert_numbered(
        mesh,
        points,
        corners,
        neighbours,
        corrections,
        node,
        replacement,
        state,
        list,
        faces,
        ranks,
        slots,
    ))
}
