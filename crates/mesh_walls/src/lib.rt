// Whether three positions lie on one wall of the box.

#![tactic(auto)]

ghost use Rattle.std.specs.Prelude.{◌≡◌};
ghost use Rattle.mesh.specs.Inner.Faces.{same_level, on_one_wall};

use geometry::Position;

// The coordinate is `level` at each of three positions.
fn level_at(level: u32, a: u32, b: u32, c: u32) -> bool
    ensures { result ≡ same_level level a b c }
{
    c == level && b == level && a == level
}

#[tactic(auto, unfolding(mesh::specs::Inner::Faces::on_one_wall))]
pub fn on_one_wall(x: u32, y: u32, z: u32, p: Position, q: Position, r: Position) -> bool
    ensures { result ≡ on_one_wall x y z p q r }
{
    level_at(0, p.x, q.x, r.x)
        || level_at(0, p.y, q.y, r.y)
        || level_at(0, p.z, q.z, r.z)
        || level_at(x, p.x, q.x, r.x)
        || level_at(y, p.y, q.y, r.y)
        || level_at(z, p.z, q.z, r.z)
}
