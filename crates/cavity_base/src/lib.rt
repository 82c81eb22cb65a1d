// The base of a node's cavity, cell by cell; what a cell answers, and how it joins.

#![tactic(auto)]

ghost use Rattle.std.specs.Prelude.{◌≡◌, ◌+◌, ◌<◌, length, set};
ghost use Rattle.mesh.specs.Tables.{tables_in, tables_before, IsCell};
ghost use Rattle.locate.specs.Inner.{side_codes};
ghost use Rattle.cavity.specs.Answers.{answers_of};
ghost use Rattle.cavity.specs.Inner.{Answerable};
ghost use Rattle.cavity.specs.Inner.Growth.{answer_for, with_cell, Empty, Scanned};

use cavity::{Answer, BASE, Gathered, Node};
use insphere::{Sphere, sphere_answer};
use locate_holding::{cell_holds, may_hold};
use mesh_tables::{four_at, positions};

// What cell c answers.
pub fn answer_of(
    points: &[u32],
    corners: &[u16],
    neighbours: &[u16],
    answers: &[u8],
    node: Node,
    c: usize,
) -> Answer
    requires { Answerable (tables_in points corners neighbours) answers.now node × IsCell (tables_in points corners neighbours) node.used c }
    ensures { result ≡ answer_for (answers_of node.handed answers.now) (tables_before points corners neighbours) node.position c }
{
    if node.handed {
        return Answer {
            yes: answers[c] != 0,
            t: 0.0,
        };
    }
    match sphere_answer(positions(points, four_at(corners, c)), node.position) {
        Sphere::Inside(t) => Answer { yes: true, t },
        Sphere::Outside(t) => Answer { yes: false, t },
    }
}

// One cell more, of T x; of cells with the least T the lowest-numbered one counts.
#[tactic(auto, unfolding(cavity::specs::Inner::Growth::with_cell))]
fn with_cell(g: Gathered, c: usize, x: f64) -> Gathered
    requires { g.size < 4096 }
    ensures { result ≡ with_cell g c x }
{
    let size = g.size + 1;
    if g.size == 0 || x < g.least || !(g.least < x) && c < g.at {
        Gathered {
            size,
            least: x,
            at: c,
        }
    } else {
        Gathered { size, ..g }
    }
}

// Cell c joins: its state is written, and it is listed.
pub fn join(state: &mut [u8], list: &mut [u16], g: Gathered, c: usize, x: f64, kind: u8) -> Gathered
    requires { (g.size < 4096) × (g.size < length list.old) × (c < 4096) × (c < length state.old) }
    ensures { (result ≡ with_cell g c x) × (state.new ≡ set state.old c kind)
        × (list.new ≡ set list.old g.size c) }
{
    state[c] = kind;
    list[g.size] = c as u16;
    with_cell(g, c, x)
}

// A cell that holds the node joins.
fn try_base(
    points: &[u32],
    corners: &[u16],
    neighbours: &[u16],
    answers: &[u8],
    node: Node,
    c: usize,
    state: &mut [u8],
    list: &mut [u16],
    g: Gathered,
) -> Gathered
    requires { Answerable (tables_in points corners neighbours) answers.now node × IsCell (tables_in points corners neighbours) node.used c
        × Scanned (answers_of node.handed answers.now) (tables_in points corners neighbours) node.position node.used c
        state.old list.old g }
    ensures { Scanned (answers_of node.handed answers.now) (tables_before points corners neighbours)
        node.position node.used (c + 1) state.new list.new result }
{
    if !cell_holds(points, four_at(corners, c), node.position) {
        return g;
    }
    let answer = answer_of(points, corners, neighbours, answers, node, c);
    join(state, list, g, c, answer.t, BASE)
}

// Every cell that holds the node. Side codes rule most entries out here in the loop: a call for each would cost more.
pub fn find_base(
    points: &[u32],
    corners: &[u16],
    neighbours: &[u16],
    answers: &[u8],
    node: Node,
    codes: &[u8],
    state: &mut [u8],
    list: &mut [u16],
) -> Gathered
    requires { Answerable (tables_in points corners neighbours) answers.now node × (codes.now ≡ side_codes points.now node.points node.position)
        × Empty state.old list.old }
    ensures { Scanned (answers_of node.handed answers.now) (tables_before points corners neighbours)
        node.position node.used node.used state.new list.new result }
{
    let mut g = Gathered {
        size: 0,
        least: 0.0,
        at: 0,
    };
    for c in 0..node.used {
        if may_hold(codes, four_at(corners, c)) {
            g = try_base(
                points, corners, neighbours, answers, node, c, state, list, g,
            );
        }
    }
    g
}
