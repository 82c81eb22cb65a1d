// A node after tests 1 to 3, over any table of corrections, with what it takes for one node alone.

#![tactic(auto)]

ghost use Rattle.std.specs.Prelude.{is_some, true, ◌≡◌, ◌*◌, ◌≤◌, length};
ghost use Rattle.mesh.specs.Check.{is_mesh};
ghost use Rattle.mesh.specs.Tables.{point_capacity, tables};
ghost use Rattle.cavity.specs.Answers.{answers_of};
ghost use Rattle.insertion.specs.Inner.{as_attempt};
ghost use Rattle.insertion_marks.specs.Given.{given};
ghost use Rattle.corrections.specs.Inner.{AttemptKeeps};

use corrections_node::attempt_node;
use corrections_tests::early_refusal;
use corrections_value::out_of_range;
use geometry::Position;
use insertion::Insertion;
use mesh::Mesh;
use refusal::Refusal;

pub fn insert_node(
    mesh: Mesh,
    points: &mut [u32],
    corners: &mut [u16],
    neighbours: &mut [u16],
    corrections: &mut [i32],
    work: usize,
    answers: Option<&[u8]>,
    marks: Option<&[u8]>,
    q: Position,
) -> Result<Insertion, Refusal>
    requires { (is_mesh mesh (tables points.old corners.old neighbours.old) work ≡ true) × (is_some answers ≡ true → mesh.used ≤ length (given answers))
        × (3 * point_capacity (tables points.old corners.old neighbours.old) ≤ length corrections.old) }
    ensures { AttemptKeeps (is_some marks.entry) (given marks.entry) mesh (tables points.old corners.old neighbours.old) corrections.old work q (answers_of (is_some answers.entry) (given answers.entry))
        (as_attempt result) (tables points.new corners.new neighbours.new) corrections.new }
{
    if out_of_range(corrections, mesh.points as usize) {
        return Err(early_refusal(mesh, points, q));
    }
    let mut state = [0u8; 4096];
    let mut list = [0u16; 4096];
    let mut faces = [0u8; 4096];
    let mut denied = [0u16; 4096];
    let mut exposed = [0u8; 1024];
    let mut ranks = [0u16; 4096];
    let mut slots = [0u16; 4096];
    attempt_node(
        mesh,
        points,
        corners,
        neighbours,
        corrections,
        work,
        answers,
        marks,
        q,
        &mut state,
        &mut list,
        &mut faces,
        &mut denied,
        &mut exposed,
        &mut ranks,
        &mut slots,
    )
}
