// The growth of a cavity from its base, by the cells' answers.

#![tactic(auto)]

ghost use Rattle.std.specs.Prelude.{◌≡◌, ℕ, ◌<◌, get_or};
ghost use Rattle.mesh.specs.Tables.{tables_in, tables_before};
ghost use Rattle.cavity.specs.Answers.{answers_of, says_yes};
ghost use Rattle.cavity.specs.Cavity.{cavity_of};
ghost use Rattle.cavity.specs.Inner.{Answerable, set_of};
ghost use Rattle.cavity.specs.Inner.Growth.{Reached, Grew, Neighbour, InsideIfYes, Denied};

use cavity::{GROWN, Gathered, Node};
use cavity_base::{answer_of, join};
use mesh::NONE;
use mesh_tables::four_at;

// What lies across a face joins if it is a cell, is not in yet, and its answer is yes. A cell is asked once: what answers no is noted, by a
// number that no earlier node has, so that the notes need no clearing.
fn visit(
    points: &[u32],
    corners: &[u16],
    neighbours: &[u16],
    answers: &[u8],
    node: Node,
    d: u16,
    denied: &mut [u16],
    state: &mut [u8],
    list: &mut [u16],
    g: Gathered,
) -> Gathered
    requires { Answerable (tables_in points corners neighbours) answers.now node
        × Reached (answers_of node.handed answers.now) (tables_in points corners neighbours) node.position node.used state.old list.old g
        × Neighbour (answers_of node.handed answers.now) (tables_in points corners neighbours) node.position node.used d
        × Denied (answers_of node.handed answers.now) (tables_in points corners neighbours) node.position node.points denied.old }
    ensures { Reached (answers_of node.handed answers.now) (tables_before points corners neighbours)
        node.position node.used state.new list.new result
        × Grew node.used state.old list.old g.size state.new list.new result.size
        × InsideIfYes (answers_of node.handed answers.now) (tables_before points corners neighbours)
        node.position state.new d
        × Denied (answers_of node.handed answers.now) (tables_before points corners neighbours) node.position node.points denied.new }
{
    if d == NONE {
        return g;
    }
    let c = usize::from(d);
    let stamp = node.points as u16;
    if state[c] != 0 || denied[c] == stamp {
        return g;
    }
    let answer = answer_of(points, corners, neighbours, answers, node, c);
    if answer.yes {
        join(state, list, g, c, answer.t, GROWN)
    } else {
        denied[c] = stamp;
        g
    }
}

// The four neighbours u of a cell.
fn visit_all(
    points: &[u32],
    corners: &[u16],
    neighbours: &[u16],
    answers: &[u8],
    node: Node,
    u: [u16; 4],
    denied: &mut [u16],
    state: &mut [u8],
    list: &mut [u16],
    start: Gathered,
) -> Gathered
    requires { Answerable (tables_in points corners neighbours) answers.now node
        × Reached (answers_of node.handed answers.now) (tables_in points corners neighbours) node.position node.used state.old list.old start
        × ((j : ℕ) → j < 4 → Neighbour (answers_of node.handed answers.now) (tables_in points corners neighbours) node.position node.used (get_or u j 0))
        × Denied (answers_of node.handed answers.now) (tables_in points corners neighbours) node.position node.points denied.old }
    ensures { Reached (answers_of node.handed answers.now) (tables_before points corners neighbours)
        node.position node.used state.new list.new result
        × Grew node.used state.old list.old start.size state.new list.new result.size
        × ((j : ℕ) → j < 4 → InsideIfYes (answers_of node.handed answers.now) (tables_before points corners neighbours)
        node.position state.new (get_or u j 0))
        × Denied (answers_of node.handed answers.now) (tables_before points corners neighbours) node.position node.points denied.new }
{
    let mut g = start;
    for d in u {
        g = visit(
            points, corners, neighbours, answers, node, d, denied, state, list, g,
        );
    }
    g
}

// The cavity: 'again and again each neighbour .. whose answer is yes', from the list of those that are in.
pub fn grow(
    points: &[u32],
    corners: &[u16],
    neighbours: &[u16],
    answers: &[u8],
    node: Node,
    denied: &mut [u16],
    state: &mut [u8],
    list: &mut [u16],
    start: Gathered,
) -> Gathered
    requires { Answerable (tables_in points corners neighbours) answers.now node
        × Reached (answers_of node.handed answers.now) (tables_in points corners neighbours) node.position node.used state.old list.old start
        × Denied (answers_of node.handed answers.now) (tables_in points corners neighbours) node.position node.points denied.old }
    ensures { Reached (answers_of node.handed answers.now) (tables_before points corners neighbours)
        node.position node.used state.new list.new result
        × (set_of node.used state.new ≡ cavity_of (tables_before points corners neighbours) node.used node.position
        (says_yes (answers_of node.handed answers.now) (tables_before points corners neighbours) node.position))
        × Denied (answers_of node.handed answers.now) (tables_before points corners neighbours) node.position node.points denied.new }
{
    let mut g = start;
    let mut h = 0;
    // The list grows while it is gone through, so that no range or slice of it is known.
    while h < g.size {
        let c = usize::from(list[h]);
        g = visit_all(
            points,
            corners,
            neighbours,
            answers,
            node,
            four_at(neighbours, c),
            denied,
            state,
            list,
            g,
        );
        h += 1;
    }
    g
}
