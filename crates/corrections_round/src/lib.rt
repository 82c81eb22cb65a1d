// Rounding: a sum over a volume to the nearest whole number, halves away from zero.

#![tactic(auto)]

ghost use Rattle.std.specs.Prelude.{◌≡◌, ◌+◌, ◌*◌, ◌/◌, ◌^◌, ◌≤◌, ◌<◌, pos, nat_abs, ◌<ℤ◌};
ghost use Rattle.corrections.specs.Rounding.{Nearest};

// a / v and a half, its whole part: one division, and no remainder.
fn quotient(a: u64, v: u64) -> u64
    requires { (a ≤ 1000 * 2 ^ 52) × (0 < v) × (v ≤ 2 ^ 52) }
    ensures { result ≡ (2 * a + v) / (2 * v) }
{
    (2 * a + v) / (2 * v)
}

// The quotient of the sizes, with the sum's sign.
pub fn round(sum: i64, volume: i64) -> i64
    requires { (nat_abs sum ≤ 1000 * 2 ^ 52) × (pos 0 <ℤ volume) × (nat_abs volume ≤ 2 ^ 52) }
    ensures { Nearest sum volume result }
{
    let q = quotient(sum.unsigned_abs(), volume.unsigned_abs()) as i64;
    if sum < 0 { -q } else { q }
}
