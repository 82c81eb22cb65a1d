// The cavity's numbers join the chain of freed entries.

#![tactic(auto)]

ghost use Rattle.std.specs.Prelude.{Bool, List, [], ◌∷◌, ◌≡◌, ℕ, ◌≤◌, ◌<◌, length, get_or};
ghost use Rattle.mesh.specs.Tables.{none};
ghost use Rattle.mesh.specs.Inner.{HasCell, with_four};
ghost use Rattle.star.specs.Star.{highest_below};
ghost use Rattle.star.specs.Inner.{Rising, CavityReplaced, freed_link};

use mesh::{Cell, NONE};
use mesh_tables::store;

fn free_cell(corners: &mut [u16], neighbours: &mut [u16], c: usize, next: u16)
    requires { HasCell c corners.old × HasCell c neighbours.old }
    ensures { (corners.new ≡ with_four corners.old c (none ∷ none ∷ none ∷ none ∷ []))
        × (neighbours.new ≡ with_four neighbours.old c (next ∷ none ∷ none ∷ none ∷ [])) }
{
    let cell = Cell {
        corners: [NONE; 4],
        neighbours: [next, NONE, NONE, NONE],
    };
    store(corners, neighbours, c, cell);
}

// The cavity's cells, as listed, join the chain one by one: gives its first number after.
pub fn free_cells(
    corners: &mut [u16],
    neighbours: &mut [u16],
    list: &[u16],
    size: usize,
    rest: u16,
) -> u16
    requires { (size ≤ length list.now)
        × ((k : ℕ) → k < size → HasCell (get_or list.now k 0) corners.old × HasCell (get_or list.now k 0) neighbours.old) }
    ensures { (n : ℕ) (s : List Bool) → Rising n s list.now size →
        CavityReplaced s (λ c i. none) corners.old corners.new
        × CavityReplaced s (freed_link s rest) neighbours.old neighbours.new
        × (result ≡ highest_below s rest n) }
{
    let mut next = rest;
    for &c in &list[..size] {
        free_cell(corners, neighbours, usize::from(c), next);
        next = c;
    }
    next
}
