// Tests 4 to 6, which look at the points alone, and test 8.

#![tactic(auto)]

ghost use Rattle.std.specs.Prelude.{◌≡◌, ℕ, ◌≤◌, List, length};
ghost use Rattle.refusal.specs.Refusal.{refused_by};
ghost use Rattle.mesh.specs.Tables.{tables, tables_in, tables_before};
ghost use Rattle.locate.specs.Inner.{side_codes};
ghost use Rattle.cavity.specs.Inner.{set_of, Enumerated, Inspected};
ghost use Rattle.star.specs.Inner.{Ranked, Rising};
ghost use Rattle.insertion.specs.Inner.{some_zero, PointTests, star_found};
ghost use Rattle.insertion_tests.specs.Room.{room_found};

use cavity::{Extent, Node};
use geometry::Position;
use geometry::volume::in_box;
use insertion::Replacement;
use mesh::Mesh;
use mesh_sizes::{cell_capacity, point_capacity};
use refusal::Refusal;
use star_numbers::{rank_cells, sort_cells};

// A point has code 0 just where it lies at the node.
pub fn some_zero(codes: &[u8], np: usize) -> bool
    requires { np ≤ length codes.now }
    ensures { result ≡ some_zero codes.now np }
{
    codes[..np].contains(&0)
}

// Tests 4 to 6.
pub fn point_tests(mesh: Mesh, points: &[u32], codes: &[u8], q: Position) -> Result<(), Refusal>
    requires { (mesh.points ≤ 1024) × (codes.now ≡ side_codes points.now mesh.points q) }
    ensures { (cs ns : List ℕ) → PointTests mesh (tables points.now cs ns) q (refused_by result) }
{
    let np = mesh.points as usize;
    if !in_box(mesh.x, mesh.y, mesh.z, q) {
        Err(Refusal::Outside)
    } else if some_zero(codes, np) {
        Err(Refusal::Taken)
    } else if np == point_capacity(points.len()) {
        Err(Refusal::PointsFull)
    } else {
        Ok(())
    }
}

// Test 8. The cavity's cells are listed by rising numbers, and the new cells ranked by them. An `Err` has the replacement that finds no room.
pub fn star_room(
    points: &[u32],
    corners: &[u16],
    neighbours: &[u16],
    node: Node,
    extent: Extent,
    state: &[u8],
    list: &mut [u16],
    faces: &[u8],
    ranks: &mut [u16],
) -> Result<Replacement, Replacement>
    requires { (node.cells ≤ 4096) × (node.used ≤ 4096) × (length faces.now ≡ 4096) × (length ranks.old ≡ 4096)
        × Enumerated (tables_in points corners neighbours) node.used state.now list.old extent.after
        × Inspected (tables_in points corners neighbours) node.used node.position (set_of node.used state.now) state.now faces.now }
    ensures { (room_found result ≡ star_found (tables_before points corners neighbours) node (set_of node.used state.now) extent)
        × Enumerated (tables_before points corners neighbours) node.used state.now list.new extent.after
        × Rising node.used (set_of node.used state.now) list.new extent.after
        × Ranked (tables_before points corners neighbours) node.used node.position (set_of node.used state.now) ranks.new }
{
    sort_cells(list, extent.after);
    let made = rank_cells(list, extent.after, faces, ranks);
    let replacement = Replacement { extent, made };
    let capacity = cell_capacity(corners.len(), neighbours.len(), node.work);
    if capacity < node.cells + made {
        Err(replacement)
    } else {
        Ok(replacement)
    }
}
