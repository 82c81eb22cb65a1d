// The visibility correction of a cavity, round by round.

#![tactic(auto)]

ghost use Rattle.std.specs.Prelude.{◌≡◌, length};
ghost use Rattle.geometry.specs.Volume.{InRange};
ghost use Rattle.mesh.specs.Tables.{tables_in, tables_before};
ghost use Rattle.mesh.specs.Inner.{SomeMesh};
ghost use Rattle.cavity.specs.Cavity.{base, corrected};
ghost use Rattle.cavity.specs.Inner.{set_of, Enumerated, Inspected};
ghost use Rattle.cavity.specs.Inner.Correction.{Correctable, Round};

use cavity::Node;
use cavity_faces::{hide_corners, inspect_all};
use cavity_prune::prune;

// One round: all marks are judged on the cavity as the round finds it.
fn round(
    points: &[u32],
    corners: &[u16],
    neighbours: &[u16],
    node: Node,
    size: usize,
    state: &mut [u8],
    list: &mut [u16],
    faces: &mut [u8],
    exposed: &mut [u8],
) -> usize
    requires { SomeMesh (tables_in points corners neighbours) node.points node.used × InRange node.position
        × Correctable (tables_in points corners neighbours) node.used (base (tables_in points corners neighbours) node.used node.position) state.old list.old size × (length faces.old ≡ 4096) × (length exposed.old ≡ 1024) }
    ensures { Round (tables_before points corners neighbours) node.used node.position state.old size state.new list.new result
        × (length faces.new ≡ 4096) × (length exposed.new ≡ 1024)
        × Inspected (tables_before points corners neighbours) node.used node.position (set_of node.used state.old) state.old faces.new }
{
    hide_corners(corners, list, size, exposed);
    inspect_all(
        points, corners, neighbours, node, state, list, size, faces, exposed,
    );
    prune(
        points, corners, neighbours, node, faces, exposed, size, state, list,
    )
}

// The visibility correction, until a round removes nothing.
pub fn correct(
    points: &[u32],
    corners: &[u16],
    neighbours: &[u16],
    node: Node,
    before: usize,
    state: &mut [u8],
    list: &mut [u16],
    faces: &mut [u8],
    exposed: &mut [u8],
) -> usize
    requires { SomeMesh (tables_in points corners neighbours) node.points node.used × InRange node.position
        × Correctable (tables_in points corners neighbours) node.used (base (tables_in points corners neighbours) node.used node.position) state.old list.old before × (length faces.old ≡ 4096) × (length exposed.old ≡ 1024) }
    ensures { Enumerated (tables_before points corners neighbours) node.used state.new list.new result × (length faces.new ≡ 4096) × (length exposed.new ≡ 1024)
        × (set_of node.used state.new ≡ corrected (tables_before points corners neighbours) node.used node.position (base (tables_before points corners neighbours) node.used node.position) (set_of node.used state.old))
        × Inspected (tables_before points corners neighbours) node.used node.position (set_of node.used state.new) state.new faces.new }
{
    let mut size = before;
    loop {
        let kept = round(
            points, corners, neighbours, node, size, state, list, faces, exposed,
        );
        if kept == size {
            return kept;
        }
        size = kept;
    }
}
