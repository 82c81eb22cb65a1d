// What every call that is lent a table of corrections begins with.

#![tactic(auto)]

ghost use Rattle.std.specs.Prelude.{List, ◌≡◌, ℕ, ◌*◌, ◌≤◌, length};
ghost use Rattle.refusal.specs.Refusal.{refused_by, refusal_number};
ghost use Rattle.mesh.specs.Tables.{tables, tables_before};
ghost use Rattle.mesh.specs.Refusal.{mesh_refusal};
ghost use Rattle.corrections.specs.Corrections.{too_short};
ghost use Rattle.corrections.specs.Calls.{with_length};
ghost use Rattle.corrections.specs.Inner.{early_refusal};

use geometry::Position;
use geometry::volume::in_box;
use insertion_tests::some_zero;
use locate_holding::side_codes;
use mesh::Mesh;
use mesh_check::test_mesh;
use mesh_sizes::point_capacity;
use refusal::Refusal;

// Fewer than three entries for each point of capacity.
pub fn too_short(points: &[u32], corrections: &[i32]) -> bool
    ensures { (ks ns : List ℕ) → result ≡ too_short (tables points.now ks ns) corrections.now }
{
    corrections.len() < 3 * point_capacity(points.len())
}

// Tests 1 to 3.
pub fn test_tables(
    mesh: Mesh,
    points: &[u32],
    corners: &[u16],
    neighbours: &[u16],
    corrections: &[i32],
    work: usize,
    fewer: bool,
) -> Result<(), Refusal>
    ensures { refused_by result ≡ with_length (tables_before points corners neighbours) corrections.now
        (mesh_refusal mesh (tables_before points corners neighbours) work fewer) }
{
    if too_short(points, corrections) {
        Err(Refusal::Short)
    } else {
        test_mesh(mesh, points, corners, neighbours, work, fewer)
    }
}

// A node over a table with a number out of range: 4, 5 or 12.
pub fn early_refusal(mesh: Mesh, points: &[u32], q: Position) -> Refusal
    requires { (mesh.points ≤ 1024) × (3 * mesh.points ≤ length points.now) }
    ensures { (ks ns : List ℕ) → refusal_number result ≡ early_refusal mesh (tables points.now ks ns) q }
{
    let np = mesh.points as usize;
    if !in_box(mesh.x, mesh.y, mesh.z, q) {
        Refusal::Outside
    } else if some_zero(&side_codes(points, np, q), np) {
        Refusal::Taken
    } else {
        Refusal::OutOfRange
    }
}
