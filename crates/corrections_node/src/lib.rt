// A node after tests 1 to 3, over a table of corrections in range: nothing is written before every test has passed.

#![tactic(auto)]

ghost use Rattle.std.specs.Prelude.{is_some, true, ◌≡◌, ◌+◌, ◌*◌, ◌≤◌, length};
ghost use Rattle.refusal.specs.Refusal.{refused_by};
ghost use Rattle.mesh.specs.Check.{is_mesh};
ghost use Rattle.mesh.specs.Tables.{point_capacity, tables};
ghost use Rattle.cavity.specs.Answers.{answers_of};
ghost use Rattle.insertion.specs.Inner.{as_attempt, Scratch};
ghost use Rattle.insertion_marks.specs.Given.{given};
ghost use Rattle.corrections.specs.Inner.{Standing, AttemptKeeps};

use cavity::Node;
use corrections_allow::insert_allowed;
use geometry::Position;
use insertion::Insertion;
use insertion_find::find;
use mesh::Mesh;
use refusal::Refusal;

// A node by the sphere test or by answers handed in, with its numbers in the table; where marks are asked for, only if these are those of
// a look. What is lent from `state` on serves node after node: after an accepted one it is as it has to be for the next.
pub fn attempt_node(
    mesh: Mesh,
    points: &mut [u32],
    corners: &mut [u16],
    neighbours: &mut [u16],
    corrections: &mut [i32],
    work: usize,
    answers: Option<&[u8]>,
    marks: Option<&[u8]>,
    q: Position,
    state: &mut [u8],
    list: &mut [u16],
    faces: &mut [u8],
    denied: &mut [u16],
    exposed: &mut [u8],
    ranks: &mut [u16],
    slots: &mut [u16],
) -> Result<Insertion, Refusal>
    requires { (is_mesh mesh (tables points.old corners.old neighbours.old) work ≡ true) × (is_some answers ≡ true → mesh.used ≤ length (given answers))
        × Standing mesh.points corrections.old × (3 * point_capacity (tables points.old corners.old neighbours.old) ≤ length corrections.old)
        × Scratch mesh.points state.old list.old faces.old denied.old exposed.old ranks.old × (length slots.old ≡ 4096) }
    ensures { AttemptKeeps (is_some marks.entry) (given marks.entry) mesh (tables points.old corners.old neighbours.old) corrections.old work q (answers_of (is_some answers.entry) (given answers.entry))
        (as_attempt result) (tables points.new corners.new neighbours.new) corrections.new
        × (refused_by result ≡ 0 → Scratch (mesh.points + 1) state.new list.new faces.new denied.new exposed.new ranks.new) }
{
    let node = Node {
        position: q,
        points: mesh.points as usize,
        cells: mesh.cells as usize,
        used: mesh.used as usize,
        work,
        handed: answers.is_some(),
    };
    let replacement = find(
        mesh,
        points,
        corners,
        neighbours,
        answers.unwrap_or(&[]),
        node,
        state,
        list,
        faces,
        denied,
        exposed,
        ranks,
    )?;
    insert_allowed(
        mesh,
        points,
        corners,
        neighbours,
        corrections,
        node,
        replacement,
        marks,
        state,
        list,
        faces,
        ranks,
        slots,
    )
}
