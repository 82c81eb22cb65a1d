// Of the cells that hold a position, the one whose sorted corners come first.

#![tactic(auto)]

ghost use Rattle.std.specs.Prelude.{[], ◌≡◌, ◌<◌, unwrap_or, IfSome};
ghost use Rattle.geometry.specs.Volume.{InRange};
ghost use Rattle.mesh.specs.Tables.{tables};
ghost use Rattle.mesh.specs.Inner.{Solid};
ghost use Rattle.locate.specs.Locate.{first_holder};
ghost use Rattle.locate_first.specs.Candidates.{earlier_of};

use geometry::Position;
use locate::Candidate;
use locate_holding::{cell_holds, may_hold, side_codes};
use locate_key::key_of;
use mesh_tables::four_at;

// Cell c with the corners k where it comes before the candidate, else the candidate.
#[tactic(auto, unfolding(crate::specs::Candidates::earlier_of, locate::specs::Inner::earlier))]
fn earlier(k: [u16; 4], c: usize, first: Option<Candidate>) -> Candidate
    ensures { result ≡ earlier_of k c first }
{
    let key = key_of(k);
    match first {
        Some(first) if first.key <= key => first,
        _ => Candidate { cell: c, key },
    }
}

// Of the cells among n entries that hold q, the one whose sorted corners come first.
pub fn first_holder(
    points: &[u32],
    corners: &[u16],
    np: usize,
    n: usize,
    q: Position,
) -> Option<usize>
    requires { Solid points.now corners.now np n × InRange q }
    ensures first { unwrap_or result n ≡ first_holder (tables points.now corners.now []) n q }
    ensures below { IfSome result (λ c. c < n) }
{
    let codes = side_codes(points, np, q);
    let mut first = None;
    for c in 0..n {
        let k = four_at(corners, c);
        if may_hold(&codes, k) && cell_holds(points, k, q) {
            first = Some(earlier(k, c, first));
        }
    }
    first.map(|candidate| candidate.cell)
}
