ghost use Rattle.std.specs.Prelude.{◌≡◌};
ghost use Rattle.geometry.specs.Volume.{InRange, squared_distance};

use crate::Position;
use crate::vectors::{difference, dot};

pub fn squared_distance(a: Position, p: Position) -> i64
    requires { InRange a × InRange p }
    ensures { result ≡ squared_distance a p }
{
    let u = difference(p, a);
    dot(u, u)
}
