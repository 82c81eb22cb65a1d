// Codes of the points as seen from a segment: a cell whose corners share a bit is not touched, and no volume is worked out.

#![tactic(auto)]

ghost use Rattle.std.specs.Prelude.{◌≡◌};
ghost use Rattle.geometry.specs.Volume.{InRange, max_side};
ghost use Rattle.geometry.specs.Inner.{Bounded};
ghost use Rattle.mesh.specs.Inner.{Placed};
ghost use Rattle.segment.specs.Inner.{range_codes, sign_code, line_code, line_codes};

use geometry::vectors::{cross, difference};
use geometry::{Position, Vector};
use locate_holding::{codes_of, side_code};

// Beyond both ends on one side of an axis.
pub fn range_codes(points: &[u32], np: usize, a: Position, b: Position) -> [u8; 1024]
    requires { Placed points.now np }
    ensures { result ≡ range_codes points.now np a b }
{
    codes_of(points, np, |p| side_code(p, a) & side_code(p, b))
}

fn sign_code(v: i64) -> u8
    ensures { result ≡ sign_code v }
{
    u8::from(v < 0) + 2 * u8::from(0 < v)
}

// On which side of the line from a along u the point lies, in each plane of two axes.
fn line_code(a: Position, u: Vector, p: Position) -> u8
    requires { InRange a × Bounded max_side u × InRange p }
    ensures { result ≡ line_code a u p }
{
    let w = cross(u, difference(a, p));
    sign_code(w.x) + 4 * sign_code(w.y) + 16 * sign_code(w.z)
}

pub fn line_codes(points: &[u32], np: usize, a: Position, b: Position) -> [u8; 1024]
    requires { Placed points.now np × InRange a × InRange b }
    ensures { result ≡ line_codes points.now np a b }
{
    let u = difference(a, b);
    codes_of(points, np, |p| line_code(a, u, p))
}
