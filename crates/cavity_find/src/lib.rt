// The cavity of a node: base, growth and correction. What it is lent for this serves node after node, and nothing of it is cleared as a
// whole: `denied` goes by stamps, and `clear_states` sets back the states of the cavity's cells.

#![tactic(auto)]

ghost use Rattle.std.specs.Prelude.{◌≡◌, ◌+◌, length};
ghost use Rattle.mesh.specs.Tables.{tables_in, tables_before};
ghost use Rattle.locate.specs.Inner.{side_codes};
ghost use Rattle.cavity.specs.Answers.{answers_of};
ghost use Rattle.cavity.specs.Inner.{Answerable, Listed, CavityFound};
ghost use Rattle.cavity.specs.Inner.Growth.{Empty, Unstamped};

use cavity::{Extent, Node};
use cavity_base::find_base;
use cavity_correction::correct;
use cavity_growth::grow;

pub fn find_cavity(
    points: &[u32],
    corners: &[u16],
    neighbours: &[u16],
    answers: &[u8],
    node: Node,
    codes: &[u8],
    state: &mut [u8],
    list: &mut [u16],
    faces: &mut [u8],
    denied: &mut [u16],
    exposed: &mut [u8],
) -> Extent
    requires { Answerable (tables_in points corners neighbours) answers.now node × (codes.now ≡ side_codes points.now node.points node.position)
        × Empty state.old list.old × Unstamped node.points denied.old × (length faces.old ≡ 4096) × (length exposed.old ≡ 1024) }
    ensures { CavityFound (answers_of node.handed answers.now) (tables_before points corners neighbours) node.position node.used
        state.new list.new faces.new result
        × Unstamped (node.points + 1) denied.new × (length exposed.new ≡ 1024) }
{
    let base = find_base(
        points, corners, neighbours, answers, node, codes, state, list,
    );
    if base.size == 0 {
        return Extent {
            before: 0,
            after: 0,
            least: 0.0,
            holder: 0,
        };
    }
    let grown = grow(
        points, corners, neighbours, answers, node, denied, state, list, base,
    );
    let after = correct(
        points, corners, neighbours, node, grown.size, state, list, faces, exposed,
    );
    Extent {
        before: grown.size,
        after,
        least: grown.least,
        holder: base.at,
    }
}

// No cell is in the cavity any more.
pub fn clear_states(list: &[u16], size: usize, state: &mut [u8])
    requires { Listed state.old list.now size }
    ensures { Empty state.new list.now }
{
    for &c in &list[..size] {
        state[usize::from(c)] = 0;
    }
}
