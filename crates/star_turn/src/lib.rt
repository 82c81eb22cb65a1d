// Turning round an edge through the cells of a cavity.

#![tactic(auto)]

ghost use Rattle.std.specs.Prelude.{true, ◌≢◌, ◌≡◌, ◌<◌, length};
ghost use Rattle.mesh.specs.Tables.{none, corner, across, mate, place_of};
ghost use Rattle.mesh.specs.Inner.{HasCell};
ghost use Rattle.cavity.specs.Cavity.{in_set};
ghost use Rattle.cavity.specs.Inner.{inside, set_of};
ghost use Rattle.star.specs.Turn as steps;
ghost use Rattle.star.specs.Inner.{entry_at, state_of, CavityIntact};

use mesh::NONE;
use star::Circulator;

// The place of v among the four entries of cell c; 3 where it is none of the first three.
pub fn place_of(table: &[u16], c: usize, v: u16) -> usize
    requires { HasCell c table.now }
    ensures { result ≡ place_of (entry_at table.now) c v }
{
    table[4 * c..4 * c + 3]
        .iter()
        .position(|&corner| corner == v)
        .unwrap_or(3)
}

fn is_inside(state: &[u8], u: u16) -> bool
    requires { (length state.now ≡ 4096) × (u ≢ none → u < 4096) }
    ensures { result ≡ inside state.now u }
{
    u != NONE && 0 < state[usize::from(u)]
}

// What lies behind the exit face.
pub fn behind(neighbours: &[u16], at: Circulator) -> u16
    requires { HasCell at.cell neighbours.now × (at.exit < 4) }
    ensures { result ≡ entry_at neighbours.now at.cell at.exit }
{
    neighbours[4 * at.cell + at.exit]
}

// Through the exit face into the cell u behind it. The next exit is opposite to the point that the entry was opposite to.
fn cross(corners: &[u16], neighbours: &[u16], at: Circulator, u: usize) -> Circulator
    requires { HasCell u corners.now × HasCell u neighbours.now × HasCell at.cell corners.now × (at.entry < 4) }
    ensures { state_of result ≡ record {
      cell = u;
      entry = place_of (entry_at neighbours.now) u at.cell;
      exit = place_of (entry_at corners.now) u (entry_at corners.now at.cell at.entry);
    } }
{
    Circulator {
        cell: u,
        entry: place_of(neighbours, u, at.cell as u16),
        exit: place_of(corners, u, corners[4 * at.cell + at.entry]),
    }
}

// Round an edge through cells of the cavity, until the exit is an outer face: at most as many steps as there are cells.
pub fn turn(
    corners: &[u16],
    neighbours: &[u16],
    state: &[u8],
    n: usize,
    from: Circulator,
) -> Circulator
    requires { CavityIntact n state.now corners.now neighbours.now × (in_set (set_of n state.now) from.cell ≡ true)
        × (from.entry < 4) × (from.exit < 4) × (from.entry ≢ from.exit) }
    ensures { (b : CavityIntact n state.now corners.now neighbours.now) →
        state_of result ≡ steps.turn (corner b.was) (across b.was) (mate b.was) (in_set (set_of n state.now)) n (state_of from) }
{
    let mut at = from;
    for _ in 0..n {
        let u = behind(neighbours, at);
        if !is_inside(state, u) {
            return at;
        }
        at = cross(corners, neighbours, at, usize::from(u));
    }
    at
}
