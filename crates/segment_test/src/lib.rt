// Whether a segment touches a cell, exactly: where one face is entered and another left, products of two volumes are compared in two words.

#![tactic(auto)]

ghost use Rattle.std.specs.Prelude.{ℕ, ◌≤◌, ◌<◌, ◌*◌, ◌^◌, not, ◌&&◌, ◌≡◌, leb, nat_abs};
ghost use Rattle.arith.specs.Table.{all_below};
ghost use Rattle.geometry.specs.Volume.{InRange};
ghost use Rattle.mesh.specs.Inner.{Cornered};
ghost use Rattle.locate.specs.Inner.{volume_at};
ghost use Rattle.segment.specs.Call.{below, in_order};
ghost use Rattle.segment.specs.Inner.{product_of, volumes_meet, touches_four};

use geometry::volume::volumes_at;
use geometry::{Position, Volumes};
use mesh_tables::positions;
use segment::Product;

// 2^26: a volume has two parts.
const PART: u64 = 67108864;

// x times y, from their parts.
fn product(x: u64, y: u64) -> Product
    requires { (x ≤ 2 ^ 52) × (y ≤ 2 ^ 52) }
    ensures { result ≡ product_of x y }
{
    let xh = x / PART;
    let xl = x % PART;
    let yh = y / PART;
    let yl = y % PART;
    let low = xl * yl;
    let middle = xh * yl + xl * yh + low / PART;
    Product {
        high: xh * yh + middle / PART,
        low: middle % PART * PART + low % PART,
    }
}

// Whether x times y is at most u times w.
fn product_at_most(x: u64, y: u64, u: u64, w: u64) -> bool
    requires { (x ≤ 2 ^ 52) × (y ≤ 2 ^ 52) × (u ≤ 2 ^ 52) × (w ≤ 2 ^ 52) }
    ensures { result ≡ leb (x * y) (u * w) }
{
    let p = product(x, y);
    let q = product(u, w);
    p.high < q.high || p.high == q.high && p.low <= q.low
}

// Where the face with the volumes a and b at the ends is entered and that with c and d is left, this is no earlier.
fn in_order(a: i64, b: i64, c: i64, d: i64) -> bool
    requires { (nat_abs a ≤ 2 ^ 52) × (nat_abs b ≤ 2 ^ 52) × (nat_abs c ≤ 2 ^ 52) × (nat_abs d ≤ 2 ^ 52) }
    ensures { result ≡ in_order a b c d }
{
    0 <= d
        || c < 0
        || 0 <= a
        || b < 0
        || product_at_most(
            a.unsigned_abs(),
            d.unsigned_abs(),
            c.unsigned_abs(),
            b.unsigned_abs(),
        )
}

// The face with the volumes p and q at the ends, and each of the four.
fn face_meets(p: i64, q: i64, a: Volumes, b: Volumes) -> bool
    requires { (nat_abs p ≤ 2 ^ 52) × (nat_abs q ≤ 2 ^ 52) × ((i : ℕ) → i < 4 → nat_abs (volume_at a i) ≤ 2 ^ 52) × ((i : ℕ) → i < 4 → nat_abs (volume_at b i) ≤ 2 ^ 52) }
    ensures { result ≡ (not (below p && below q) && all_below 4 (λ l. in_order p q (volume_at a l) (volume_at b l))) }
{
    0 <= p
        || 0 <= q
            && in_order(p, q, a.v3, b.v3)
            && in_order(p, q, a.v2, b.v2)
            && in_order(p, q, a.v1, b.v1)
            && in_order(p, q, a.v0, b.v0)
}

fn volumes_meet(a: Volumes, b: Volumes) -> bool
    requires { ((i : ℕ) → i < 4 → nat_abs (volume_at a i) ≤ 2 ^ 52) × ((i : ℕ) → i < 4 → nat_abs (volume_at b i) ≤ 2 ^ 52) }
    ensures { result ≡ volumes_meet a b }
{
    face_meets(a.v3, b.v3, a, b)
        && face_meets(a.v2, b.v2, a, b)
        && face_meets(a.v1, b.v1, a, b)
        && face_meets(a.v0, b.v0, a, b)
}

// Whether the segment from a to b touches the cell with the corners k.
pub fn cell_touches(points: &[u32], k: [u16; 4], a: Position, b: Position) -> bool
    requires { Cornered points.now k × InRange a × InRange b }
    ensures { result ≡ touches_four points.now k a b }
{
    let s = positions(points, k);
    volumes_meet(volumes_at(s, a), volumes_at(s, b))
}
