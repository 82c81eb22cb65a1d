// The correction of a position in a cell that holds it, and a point's numbers in the table.

#![tactic(auto)]

ghost use Rattle.std.specs.Prelude.{true, [], ◌≡◌, ℕ, ◌+◌, ◌*◌, ◌^◌, ◌≤◌, ◌<◌, pos, nat_abs, ◌+ℤ◌, ◌*ℤ◌, length, get_or, ◌<ℤ◌};
ghost use Rattle.arith.specs.Table.{sum};
ghost use Rattle.mesh.specs.Tables.{tables};
ghost use Rattle.locate.specs.Inner.{volume_at, none_negative};
ghost use Rattle.corrections.specs.Rounding.{rounded};
ghost use Rattle.corrections.specs.Corrections.{number_of, with_correction, in_range, out_of_range, correction_in};
ghost use Rattle.corrections.specs.Inner.{Readable};

use corrections::Correction;
use corrections_round::round;
use geometry::volume::volumes_at;
use geometry::{Position, Volumes};
use mesh_tables::{four_at, positions};

// A correction's numbers are from -1,000 to 1,000.
const LIMIT: u32 = 1000;

fn number_at(corrections: &[i32], axis: usize, v: u16) -> i64
    requires { 3 * v + axis < length corrections.now }
    ensures { result ≡ number_of corrections.now axis v }
{
    i64::from(corrections[3 * usize::from(v) + axis])
}

fn cell_volume(v: Volumes) -> i64
    requires { (none_negative v ≡ true) × (nat_abs (sum 4 (volume_at v)) ≤ 2 ^ 52) }
    ensures { result ≡ sum 4 (volume_at v) }
{
    v.v0 + v.v1 + v.v2 + v.v3
}

// No partial sum is above 1,000 times the cell's volume.
fn weighted_sum(v: Volumes, a: i64, b: i64, c: i64, d: i64) -> i64
    requires { (none_negative v ≡ true) × (nat_abs (sum 4 (volume_at v)) ≤ 2 ^ 52) × (nat_abs a ≤ 1000) × (nat_abs b ≤ 1000) × (nat_abs c ≤ 1000) × (nat_abs d ≤ 1000) }
    ensures { result ≡ volume_at v 0 *ℤ a +ℤ volume_at v 1 *ℤ b +ℤ volume_at v 2 *ℤ c +ℤ volume_at v 3 *ℤ d }
{
    v.v0 * a + v.v1 * b + v.v2 * c + v.v3 * d
}

// The volumes' weighted sum over their own sum, the cell's volume, rounded.
fn axis_value(corrections: &[i32], k: [u16; 4], axis: usize, v: Volumes) -> i32
    requires { (none_negative v ≡ true) × (pos 0 <ℤ sum 4 (volume_at v)) × (nat_abs (sum 4 (volume_at v)) ≤ 2 ^ 52)
        × ((i : ℕ) → i < 4 → (3 * get_or k i 0 + axis < length corrections.now) × (in_range (number_of corrections.now axis (get_or k i 0)) ≡ true)) }
    ensures { result ≡ rounded (sum 4 (λ i. volume_at v i *ℤ number_of corrections.now axis (get_or k i 0))) (sum 4 (volume_at v)) }
{
    let a = number_at(corrections, axis, k[0]);
    let b = number_at(corrections, axis, k[1]);
    let c = number_at(corrections, axis, k[2]);
    let d = number_at(corrections, axis, k[3]);
    round(weighted_sum(v, a, b, c, d), cell_volume(v)) as i32
}

// On each axis the volumes' weighted sum over their own sum, which is the cell's volume, rounded.
pub fn correction_in(
    points: &[u32],
    corners: &[u16],
    corrections: &[i32],
    c: usize,
    q: Position,
) -> Correction
    requires { Readable points.now corners.now corrections.now q c }
    ensures { result ≡ correction_in (tables points.now corners.now []) corrections.now q c }
{
    let k = four_at(corners, c);
    let v = volumes_at(positions(points, k), q);
    let x = axis_value(corrections, k, 0, v);
    let y = axis_value(corrections, k, 1, v);
    let z = axis_value(corrections, k, 2, v);
    Correction { x, y, z }
}

pub fn in_range(d: i32) -> bool
    ensures { result ≡ in_range d }
{
    d.unsigned_abs() <= LIMIT
}

// A number out of range stands in the table for one of np points.
pub fn out_of_range(corrections: &[i32], np: usize) -> bool
    requires { 3 * np ≤ length corrections.now }
    ensures { result ≡ out_of_range np corrections.now }
{
    // A chain by `any` was tried: a closure is not told that a signed item fits its type, and the proof did not close.
    for &d in &corrections[..3 * np] {
        if !in_range(d) {
            return true;
        }
    }
    false
}

pub fn put_correction(corrections: &mut [i32], v: usize, d: Correction)
    requires { 3 * v + 2 < length corrections.old }
    ensures { corrections.new ≡ with_correction corrections.old v d }
{
    corrections[3 * v] = d.x;
    corrections[3 * v + 1] = d.y;
    corrections[3 * v + 2] = d.z;
}
