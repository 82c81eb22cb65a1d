// The new cells of a star, at their numbers, and named by what lies across.

#![tactic(auto)]

ghost use Rattle.std.specs.Prelude.{true, ◌≢◌, ◌≡◌, ◌+◌, ◌*◌, ◌<◌, get_or};
ghost use Rattle.mesh.specs.Tables.{none, tables};
ghost use Rattle.mesh.specs.Inner.{HasCell, with_four};
ghost use Rattle.cavity.specs.Cavity.{in_set};
ghost use Rattle.cavity.specs.Inner.{set_of};
ghost use Rattle.star.specs.Inner.{StarInProgress, numbers_of, name_back, FaceDone, Starring, AllStarred};

use cavity::Node;
use mesh::{Cell, NONE};
use mesh_tables::store;
use star::Circulator;
use star_new::{new_cell, new_number};
use star_turn::place_of;

fn name_back(neighbours: &mut [u16], u: u16, c: usize, slot: usize)
    requires { (u ≢ none → HasCell u neighbours.old) × (c < 4096) × (slot < 4096) }
    ensures { neighbours.new ≡ name_back neighbours.old u c slot }
{
    if u != NONE {
        let far = usize::from(u);
        let at = 4 * far + place_of(neighbours, far, c as u16);
        neighbours[at] = slot as u16;
    }
}

// The new cell of face k of cell c, in its slot and named back.
fn put_cell(
    corners: &mut [u16],
    neighbours: &mut [u16],
    cell: Cell,
    c: usize,
    k: usize,
    slot: usize,
)
    requires { HasCell slot corners.old × HasCell slot neighbours.old × (c < 4096) × (k < 4)
        × (get_or cell.neighbours k 0 ≢ none → HasCell (get_or cell.neighbours k 0) neighbours.old) }
    ensures { (corners.new ≡ with_four corners.old slot cell.corners)
        × (neighbours.new ≡ name_back (with_four neighbours.old slot cell.neighbours) (get_or cell.neighbours k 0) c slot) }
{
    let far = cell.neighbours[k];
    store(corners, neighbours, slot, cell);
    name_back(neighbours, far, c, slot);
}

// Face k of the cavity's cell c, if it is visible, makes a cell.
fn star_face(
    corners: &mut [u16],
    neighbours: &mut [u16],
    np: usize,
    n: usize,
    state: &[u8],
    faces: &[u8],
    ranks: &[u16],
    slots: &[u16],
    c: usize,
    k: usize,
)
    requires { StarInProgress n state.now faces.now ranks.now slots.now corners.old neighbours.old
        × (in_set (set_of n state.now) c ≡ true) × (k < 4) × (np < 1024) }
    ensures { (b : StarInProgress n state.now faces.now ranks.now slots.now corners.old neighbours.old) →
        FaceDone (numbers_of b) b.standing.was n b.p np (set_of n state.now) (4 * c + k)
        corners.old neighbours.old corners.new neighbours.new }
{
    let face = Circulator {
        cell: c,
        entry: k,
        exit: k,
    };
    let slot = new_number(faces, ranks, slots, face);
    if slot != NONE {
        let cell = new_cell(corners, neighbours, np, n, state, faces, ranks, slots, c, k);
        put_cell(corners, neighbours, cell, c, k, usize::from(slot));
    }
}

// The star of the cavity: a new cell for each visible face, while the cavity still stands.
pub fn star_faces(
    points: &[u32],
    corners: &mut [u16],
    neighbours: &mut [u16],
    node: Node,
    state: &[u8],
    list: &[u16],
    size: usize,
    faces: &[u8],
    ranks: &[u16],
    slots: &[u16],
)
    requires { Starring (tables points.now corners.old neighbours.old) node.points node.used node.position
        state.now list.now size faces.now ranks.now slots.now }
    ensures { (b : Starring (tables points.now corners.old neighbours.old) node.points node.used node.position
        state.now list.now size faces.now ranks.now slots.now) →
        AllStarred b corners.new neighbours.new }
{
    for &c in &list[..size] {
        for k in 0..4 {
            star_face(
                corners,
                neighbours,
                node.points,
                node.used,
                state,
                faces,
                ranks,
                slots,
                usize::from(c),
                k,
            );
        }
    }
}
