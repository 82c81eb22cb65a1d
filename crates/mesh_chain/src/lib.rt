// The chain of freed entries.

#![tactic(auto)]

ghost use Rattle.std.specs.Prelude.{[], ◌≡◌, ◌-◌};
ghost use Rattle.mesh.specs.Tables.{tables};
ghost use Rattle.mesh.specs.Chain.{freed_entry, chain_ok};
ghost use Rattle.mesh.specs.Inner.{HasCell, Celled};

use mesh::{Mesh, NONE};
use mesh_tables::{four_at, is_freed};

// Whether entry c is freed, and names nothing but the next on the chain.
fn is_link(corners: &[u16], neighbours: &[u16], c: usize) -> bool
    requires { HasCell c corners.now × HasCell c neighbours.now }
    ensures { result ≡ freed_entry (tables [] corners.now neighbours.now) c }
{
    is_freed(four_at(corners, c)) && four_at(neighbours, c)[1..] == [NONE; 3]
}

// Whether the chain has as many entries as are in use and no cells, each of them freed, and then ends. So it has each freed entry
// one time: a chain that comes back to an entry has no end.
pub fn chain_passes(mesh: Mesh, corners: &[u16], neighbours: &[u16]) -> bool
    requires { Celled corners.now mesh.used × Celled neighbours.now mesh.used }
    ensures { result ≡ chain_ok (tables [] corners.now neighbours.now)
        mesh.used (mesh.used - mesh.cells) mesh.chain }
{
    let mut at = mesh.chain;
    for _ in mesh.cells..mesh.used {
        if mesh.used <= at || !is_link(corners, neighbours, at as usize) {
            return false;
        }
        at = u32::from(neighbours[4 * at as usize]);
    }
    at == u32::from(NONE)
}
