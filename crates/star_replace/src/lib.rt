// The star of a node in its cavity's place.

#![tactic(auto)]

ghost use Rattle.std.specs.Prelude.{◌≡◌};
ghost use Rattle.mesh.specs.Tables.{tables};
ghost use Rattle.cavity.specs.Inner.{set_of};
ghost use Rattle.star.specs.Star.{star, chain_after};
ghost use Rattle.star.specs.Inner.{Replacing};

use cavity::Node;
use mesh_tables::put_point;
use star_cells::star_faces;
use star_free::free_cells;

// The star of the node takes the cavity's place, and the node comes after the points; `rest` is what the new cells leave of the chain.
// Gives the chain's first number after, as the cavity's numbers have joined it.
pub fn replace_cavity(
    points: &mut [u32],
    corners: &mut [u16],
    neighbours: &mut [u16],
    node: Node,
    state: &[u8],
    list: &[u16],
    size: usize,
    faces: &[u8],
    ranks: &[u16],
    slots: &[u16],
    rest: u16,
) -> u16
    requires { Replacing (tables points.old corners.old neighbours.old) node.points node.used node.position
        state.now list.now size faces.now ranks.now slots.now rest }
    ensures { (b : Replacing (tables points.old corners.old neighbours.old) node.points node.used node.position
        state.now list.now size faces.now ranks.now slots.now rest) →
        (tables points.new corners.new neighbours.new
        ≡ star b.starring.ch (tables points.old corners.old neighbours.old) node.used node.position node.points (set_of node.used state.now))
        × (result ≡ chain_after b.starring.ch (tables points.old corners.old neighbours.old) node.used node.position (set_of node.used state.now)) }
{
    star_faces(
        points, corners, neighbours, node, state, list, size, faces, ranks, slots,
    );
    let chain = free_cells(corners, neighbours, list, size, rest);
    put_point(points, node.points, node.position);
    chain
}
