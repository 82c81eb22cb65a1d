// The new cell of a visible face: its number, corners and neighbours.

#![tactic(auto)]

ghost use Rattle.std.specs.Prelude.{◌≡◌, ℕ, ◌+◌, ◌*◌, ◌<◌, get_or};
ghost use Rattle.cavity.specs.Inner.{set_of};
ghost use Rattle.star.specs.Star.{made_across};
ghost use Rattle.star.specs.Inner.{bit_set, number_at, numbers_of, HasNumber, StarInProgress, VisibleFace, NewCell};

use mesh::{Cell, NONE};
use mesh_tables::four_at;
use star::Circulator;
use star_numbers::visible_below;
use star_turn::{behind, turn};

fn is_visible(code: u8, k: usize) -> bool
    requires { k < 4 }
    ensures { result ≡ bit_set code k }
{
    (code >> k) % 2 == 1
}

// The number of the new cell of a face, none if the face is coplanar.
pub fn new_number(faces: &[u8], ranks: &[u16], slots: &[u16], g: Circulator) -> u16
    requires { HasNumber faces.now ranks.now slots.now g.cell g.exit }
    ensures { result ≡ number_at faces.now ranks.now slots.now g.cell g.exit }
{
    let code = faces[g.cell];
    if is_visible(code, g.exit) {
        slots[usize::from(ranks[g.cell]) + visible_below(code, g.exit)]
    } else {
        NONE
    }
}

// Across face j of the new cell of face k of cell c.
fn new_neighbour(
    corners: &[u16],
    neighbours: &[u16],
    n: usize,
    state: &[u8],
    faces: &[u8],
    ranks: &[u16],
    slots: &[u16],
    c: usize,
    k: usize,
    j: usize,
) -> u16
    requires { StarInProgress n state.now faces.now ranks.now slots.now corners.now neighbours.now × VisibleFace n state.now faces.now c k × (j < 4) }
    ensures { (b : StarInProgress n state.now faces.now ranks.now slots.now corners.now neighbours.now) →
        result ≡ made_across (numbers_of b) b.standing.was n b.p (set_of n state.now) (4 * c + k) j }
{
    let from = Circulator {
        cell: c,
        entry: k,
        exit: j,
    };
    if j == k {
        behind(neighbours, from)
    } else {
        let g = turn(corners, neighbours, state, n, from);
        new_number(faces, ranks, slots, g)
    }
}

fn new_neighbours(
    corners: &[u16],
    neighbours: &[u16],
    n: usize,
    state: &[u8],
    faces: &[u8],
    ranks: &[u16],
    slots: &[u16],
    c: usize,
    k: usize,
) -> [u16; 4]
    requires { StarInProgress n state.now faces.now ranks.now slots.now corners.now neighbours.now × VisibleFace n state.now faces.now c k }
    ensures { (b : StarInProgress n state.now faces.now ranks.now slots.now corners.now neighbours.now) →
        (j : ℕ) → j < 4 → get_or result j 0 ≡ made_across (numbers_of b) b.standing.was n b.p (set_of n state.now) (4 * c + k) j }
{
    // `array::from_fn` was tried: what the calls answered did not reach its proof.
    [
        new_neighbour(corners, neighbours, n, state, faces, ranks, slots, c, k, 0),
        new_neighbour(corners, neighbours, n, state, faces, ranks, slots, c, k, 1),
        new_neighbour(corners, neighbours, n, state, faces, ranks, slots, c, k, 2),
        new_neighbour(corners, neighbours, n, state, faces, ranks, slots, c, k, 3),
    ]
}

// The cell's corners, with the one opposite face k replaced by the new point.
pub fn new_cell(
    corners: &[u16],
    neighbours: &[u16],
    np: usize,
    n: usize,
    state: &[u8],
    faces: &[u8],
    ranks: &[u16],
    slots: &[u16],
    c: usize,
    k: usize,
) -> Cell
    requires { StarInProgress n state.now faces.now ranks.now slots.now corners.now neighbours.now × VisibleFace n state.now faces.now c k × (np < 1024) }
    ensures { (b : StarInProgress n state.now faces.now ranks.now slots.now corners.now neighbours.now) →
        NewCell (numbers_of b) b.standing.was n b.p np (set_of n state.now) (4 * c + k) result }
{
    let mut replaced = four_at(corners, c);
    replaced[k] = np as u16;
    Cell {
        corners: replaced,
        neighbours: new_neighbours(corners, neighbours, n, state, faces, ranks, slots, c, k),
    }
}
