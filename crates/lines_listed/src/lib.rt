// A refusal, and what a list of nodes leaves, as text.

#![tactic(auto)]

ghost use Rattle.std.specs.Prelude.{◌+◌, ◌≤◌, [], length};
ghost use Rattle.mesh.specs.Tables.{tables};
ghost use Rattle.mesh.specs.Inner.{Celled};
ghost use Rattle.refusal.specs.Refusal.{refusal_number};
ghost use Rattle.insertion.specs.Listed.{as_listed};
ghost use Rattle.lines.specs.Listing.{refused_line, stopped_line, list_text};
ghost use Rattle.lines.specs.Inner.{Wrote, entries_listed, longest};

use insertion::Insertions;
use lines_mesh::write_mesh;
use lines_text::{write_bytes, write_number};
use refusal::Refusal;

pub fn write_refused(refusal: Refusal, out: &mut [u8]) -> usize
    requires { longest ≤ length out.old }
    ensures { Wrote (refused_line (refusal_number refusal)) out.old 0 result out.new }
{
    let end = write_number(b"refused ", u32::from(refusal.number()), out, 0);
    write_bytes(b"\n", out, end)
}

fn write_stopped(place: u32, refusal: Refusal, out: &mut [u8], at: usize) -> usize
    requires { at + length (stopped_line place (refusal_number refusal)) ≤ length out.old }
    ensures { Wrote (stopped_line place (refusal_number refusal)) out.old at result out.new }
{
    let next = write_number(b"stopped ", place, out, at);
    let end = write_number(b" ", u32::from(refusal.number()), out, next);
    write_bytes(b"\n", out, end)
}

// What a list of nodes leaves: the mesh, with a last line where it stopped; or a refusal.
pub fn write_listed(
    answer: Result<Insertions<Refusal>, Refusal>,
    corners: &[u16],
    neighbours: &[u16],
    out: &mut [u8],
) -> usize
    requires { Celled corners.now (entries_listed (as_listed answer)) × Celled neighbours.now (entries_listed (as_listed answer))
        × (longest ≤ length out.old) }
    ensures { Wrote (list_text (as_listed answer) (tables [] corners.now neighbours.now)) out.old 0 result out.new }
{
    match answer {
        Ok(list) => {
            let end = write_mesh(list.mesh, corners, neighbours, out);
            match list.stopped {
                None => end,
                Some(refusal) => write_stopped(list.accepted, refusal, out, end),
            }
        }
        Err(refusal) => write_refused(refusal, out),
    }
}
