// The listing of a box with nodes, with the tables lent.

#![tactic(auto)]

ghost use Rattle.std.specs.Prelude.{◌≤◌, length};
ghost use Rattle.mesh.specs.Tables.{tables};
ghost use Rattle.lines.specs.Listing.{box_text};
ghost use Rattle.lines.specs.Inner.{Wrote, longest};

use corrections_list::insert_list;
use corrections_start::start;
use lines_listed::{write_listed, write_refused};

// The listing of a box with these nodes.
pub fn list_nodes(
    x: u32,
    y: u32,
    z: u32,
    points: &mut [u32],
    corners: &mut [u16],
    neighbours: &mut [u16],
    work: &mut [u16],
    nodes: &[u32],
    out: &mut [u8],
) -> usize
    requires { longest ≤ length out.old }
    ensures { Wrote (box_text x y z (tables points.old corners.old neighbours.old) (length work.old) nodes.now)
        out.old 0 result out.new }
{
    let mut corrections = [0i32; 3072];
    match start(x, y, z, points, corners, neighbours, work, &mut corrections) {
        Ok(mesh) => {
            let answer = insert_list(
                mesh,
                points,
                corners,
                neighbours,
                work,
                &mut corrections,
                nodes,
            );
            write_listed(answer, corners, neighbours, out)
        }
        Err(refusal) => write_refused(refusal, out),
    }
}
