// The sphere test: the float sum T, and whether the exact sum E is above 0.

#![tactic(auto)]

ghost use Rattle.std.specs.Prelude.{◌≡◌, pos};
ghost use Rattle.std.specs.Int.Signed.{lt_z};
ghost use Rattle.geometry.specs.Volume.{InRange};
ghost use Rattle.geometry.specs.Inner.{CornersInRange};
ghost use Rattle.refusal.specs.Refusal.{refused_by};
ghost use Rattle.insphere.specs.Inner.{TermInRange, TermsInRange, terms_at, exact_sum, float_sum};
ghost use Rattle.insphere.specs.Sphere as spec;

use crate::exact::is_sum_positive;
use geometry::distance::squared_distance;
use geometry::volume::{corners_in_range, in_range, volume, volumes_at};
use geometry::{Position, Tetrahedron};
use refusal::Refusal;

mod exact;

// 2^39: T lies within it of E.
const LIMIT: f64 = 549755813888.0;

// The sphere answer, which carries the float T.
#[derive(Clone, Copy)]
pub enum Sphere {
    Inside(f64),
    Outside(f64),
}

// A term of E: a volume and a squared distance, to be multiplied.
#[derive(Clone, Copy)]
pub struct Term {
    pub volume: i64,
    pub distance: i64,
}

// The four terms of E, corner by corner.
#[derive(Clone, Copy)]
pub struct Terms {
    pub t0: Term,
    pub t1: Term,
    pub t2: Term,
    pub t3: Term,
}

// A number in two words: high counts units of 2^27, low the rest.
#[derive(Clone, Copy)]
pub struct Words {
    pub high: i64,
    pub low: u64,
}

fn terms_at(t: Tetrahedron, p: Position) -> Terms
    requires { CornersInRange t × InRange p }
    ensures { result ≡ terms_at t p }
{
    let v = volumes_at(t, p);
    Terms {
        t0: Term {
            volume: v.v0,
            distance: squared_distance(t.a, p),
        },
        t1: Term {
            volume: v.v1,
            distance: squared_distance(t.b, p),
        },
        t2: Term {
            volume: v.v2,
            distance: squared_distance(t.c, p),
        },
        t3: Term {
            volume: v.v3,
            distance: squared_distance(t.d, p),
        },
    }
}

// Both factors become floats without loss.
fn product(x: Term) -> f64
    requires { TermInRange x }
    ensures { result ≡ spec.product x.volume x.distance }
{
    x.volume as f64 * x.distance as f64
}

// T: from the left, one rounding at each sum.
#[tactic(auto, unfolding(crate::specs::Inner::float_sum))]
fn float_sum(x: Terms) -> f64
    requires { TermsInRange x }
    ensures { result ≡ float_sum x }
{
    product(x.t0) + product(x.t1) + product(x.t2) + product(x.t3)
}

// Whether E is above 0. Beyond the limit the float tells its sign; else the exact sum is worked out.
fn is_inside(x: Terms, t: f64) -> bool
    requires { TermsInRange x × (t ≡ float_sum x) }
    ensures { result ≡ lt_z (pos 0) (exact_sum x) }
{
    if t > LIMIT {
        true
    } else if t < -LIMIT {
        false
    } else {
        is_sum_positive(x)
    }
}

// The answer for a cell with these corners, at p.
pub fn sphere_answer(t: Tetrahedron, p: Position) -> Sphere
    requires { CornersInRange t × InRange p }
    ensures { result ≡ spec.sphere_answer t.a t.b t.c t.d p }
{
    let x = terms_at(t, p);
    let sum = float_sum(x);
    if is_inside(x, sum) {
        Sphere::Inside(sum)
    } else {
        Sphere::Outside(sum)
    }
}

#[tactic(auto, unfolding(crate::specs::Sphere::sphere_refusal))]
fn test(t: Tetrahedron, p: Position) -> Result<(), Refusal>
    ensures { refused_by result ≡ spec.sphere_refusal t.a t.b t.c t.d p }
{
    if !corners_in_range(t) || !in_range(p) {
        Err(Refusal::Outside)
    } else if volume(t) <= 0 {
        Err(Refusal::FlatCell)
    } else {
        Ok(())
    }
}

// The sphere test as a call.
pub fn sphere_test(
    a: Position,
    b: Position,
    c: Position,
    d: Position,
    p: Position,
) -> Result<Sphere, Refusal>
    ensures value { spec.as_tested result ≡ spec.sphere_call a b c d p }
    ensures near { spec.CarriesNear (spec.sphere_sum a b c d p) (spec.as_tested result) }
{
    let t = Tetrahedron { a, b, c, d };
    test(t, p)?;
    Ok(sphere_answer(t, p))
}
