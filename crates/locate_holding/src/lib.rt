// Side codes, and whether a cell holds a position.

#![tactic(auto)]

ghost use Rattle.std.specs.Prelude.{◌≢◌, ◌≡◌, ℕ, ◌≤◌, ◌<◌, ◌*◌, length, get_or};
ghost use Rattle.geometry.specs.Volume.{InRange};
ghost use Rattle.mesh.specs.Tables.{none, point_in};
ghost use Rattle.mesh.specs.Inner.{Cornered};
ghost use Rattle.locate.specs.Inner.{axis_code, side_code, side_codes, shared_bits, may_hold, none_negative, holds_four};

use geometry::volume::volumes_at;
use geometry::{Position, Volumes};
use mesh::NONE;
use mesh_tables::{point_at, positions};

#[tactic(auto, unfolding(locate::specs::Inner::axis_code))]
fn axis_code(a: u32, b: u32) -> u8
    ensures { result ≡ axis_code a b }
{
    u8::from(a < b) + 2 * u8::from(b < a)
}

pub fn side_code(p: Position, q: Position) -> u8
    ensures { result ≡ side_code p q }
{
    axis_code(p.x, q.x) + 4 * axis_code(p.y, q.y) + 16 * axis_code(p.z, q.z)
}

// A code for each of the first np points; 0 after them.
pub fn codes_of<F: Fn(Position) -> u8>(points: &[u32], np: usize, code: F) -> [u8; 1024]
    requires fits { (np ≤ 1024) × (3 * np ≤ length points.now) }
    requires callable { (v : ℕ) → v < np → F.pre code (point_in points.now v) }
    ensures long { length result ≡ 1024 }
    ensures coded { (v : ℕ) → v < np → F.post code (point_in points.now v) (get_or result v 0) }
    ensures rest { (v : ℕ) → np ≤ v → get_or result v 0 ≡ 0 }
{
    let mut codes = [0u8; 1024];
    for v in 0..np {
        codes[v] = code(point_at(points, v));
    }
    codes
}

// Six bits a point: below or above q on each axis.
pub fn side_codes(points: &[u32], np: usize, q: Position) -> [u8; 1024]
    requires { (np ≤ 1024) × (3 * np ≤ length points.now) }
    ensures { result ≡ side_codes points.now np q }
{
    codes_of(points, np, |p| side_code(p, q))
}

fn shared_bits(codes: &[u8], k: [u16; 4]) -> u8
    requires { (i : ℕ) → i < 4 → get_or k i 0 < length codes.now }
    ensures { result ≡ shared_bits codes.now k }
{
    codes[usize::from(k[0])]
        & codes[usize::from(k[1])]
        & codes[usize::from(k[2])]
        & codes[usize::from(k[3])]
}

// A freed entry holds nothing. Where a cell's corners share a bit, all are beyond q on one side of an axis: it does not hold q, and no
// volume is worked out.
pub fn may_hold(codes: &[u8], k: [u16; 4]) -> bool
    requires { get_or k 0 0 ≢ none → (i : ℕ) → i < 4 → get_or k i 0 < length codes.now }
    ensures { result ≡ may_hold codes.now k }
{
    k[0] != NONE && shared_bits(codes, k) == 0
}

#[tactic(auto, unfolding(locate::specs::Inner::none_negative, arith::specs::Table::all_below))]
fn none_negative(v: Volumes) -> bool
    ensures { result ≡ none_negative v }
{
    0 <= v.v0 && 0 <= v.v1 && 0 <= v.v2 && 0 <= v.v3
}

// A cell with the corners k holds q: no volume with a corner replaced by q is below 0.
pub fn cell_holds(points: &[u32], k: [u16; 4], q: Position) -> bool
    requires { Cornered points.now k × InRange q }
    ensures { result ≡ holds_four points.now k q }
{
    none_negative(volumes_at(positions(points, k), q))
}
