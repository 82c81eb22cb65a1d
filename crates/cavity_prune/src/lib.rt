// The cells that a round of the correction removes.

#![tactic(auto)]

ghost use Rattle.std.specs.Prelude.{◌≡◌, ℕ, ◌<◌, length, get_or};
ghost use Rattle.mesh.specs.Tables.{tables_in, tables_before};
ghost use Rattle.mesh.specs.Inner.{four_at, HasCell, SomeMesh};
ghost use Rattle.cavity.specs.Cavity.{base};
ghost use Rattle.cavity.specs.Inner.Correction.{Correctable, InspectedTo, all_exposed, cell_stays, KeptOrRemoved, Round};

use cavity::{BASE, HIDDEN, Node};
use mesh_tables::four_at;

// Every point of k is on a visible face.
fn all_exposed(exposed: &[u8], k: [u16; 4]) -> bool
    requires { (j : ℕ) → j < 4 → get_or k j 0 < length exposed.now }
    ensures { result ≡ all_exposed exposed.now k }
{
    k.iter().all(|&v| exposed[usize::from(v)] != 0)
}

// Whether a cell of the cavity stays in this round.
#[tactic(auto, unfolding(cavity::specs::Inner::Correction::cell_stays))]
fn stays(corners: &[u16], state: &[u8], faces: &[u8], exposed: &[u8], c: usize) -> bool
    requires { HasCell c corners.now × (c < length state.now) × (c < length faces.now)
        × ((i : ℕ) → i < 4 → get_or (four_at corners.now c) i 0 < length exposed.now) }
    ensures { result ≡ cell_stays state.now faces.now exposed.now (four_at corners.now c) c }
{
    state[c] == BASE || faces[c] < HIDDEN && all_exposed(exposed, four_at(corners, c))
}

// Keeps the listed cell at place i, or removes it.
fn keep_or_remove(
    corners: &[u16],
    faces: &[u8],
    exposed: &[u8],
    state: &mut [u8],
    list: &mut [u16],
    kept: usize,
    i: usize,
) -> usize
    requires { (i < length list.old) × (kept < length list.old) × (get_or list.old i 0 < 4096) × HasCell (get_or list.old i 0) corners.now
        × (get_or list.old i 0 < length state.old) × (get_or list.old i 0 < length faces.now) × (kept < 4096)
        × ((j : ℕ) → j < 4 → get_or (four_at corners.now (get_or list.old i 0)) j 0 < length exposed.now) }
    ensures { KeptOrRemoved (cell_stays state.old faces.now exposed.now (four_at corners.now (get_or list.old i 0)) (get_or list.old i 0))
        (get_or list.old i 0) state.old list.old kept state.new list.new result }
{
    let c = usize::from(list[i]);
    if stays(corners, state, faces, exposed, c) {
        list[kept] = list[i];
        kept + 1
    } else {
        state[c] = 0;
        kept
    }
}

// Removes the cells that do not stay, from the set and from the list.
pub fn prune(
    points: &[u32],
    corners: &[u16],
    neighbours: &[u16],
    node: Node,
    faces: &[u8],
    exposed: &[u8],
    size: usize,
    state: &mut [u8],
    list: &mut [u16],
) -> usize
    requires { SomeMesh (tables_in points corners neighbours) node.points node.used
        × Correctable (tables_in points corners neighbours) node.used (base (tables_in points corners neighbours) node.used node.position) state.old list.old size
        × InspectedTo (tables_in points corners neighbours) node.used node.position state.old list.old size size faces.now exposed.now }
    ensures { Round (tables_before points corners neighbours) node.used node.position state.old size state.new list.new result }
{
    let mut kept = 0;
    for i in 0..size {
        kept = keep_or_remove(corners, faces, exposed, state, list, kept, i);
    }
    kept
}
