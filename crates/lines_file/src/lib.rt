// The listing of a file's bytes.

#![tactic(auto)]

ghost use Rattle.std.specs.Prelude.{◌≤◌, length};
ghost use Rattle.mesh.specs.Tables.{tables};
ghost use Rattle.nodefile.specs.Read.{nodes as file_nodes, read_answer};
ghost use Rattle.lines.specs.Listing.{read_text, listing as listing_of};
ghost use Rattle.lines.specs.Inner.{Wrote, longest};

use lines_box::list_nodes;
use lines_listed::write_refused;
use nodefile_read::read_nodes;
use refusal::Refusal;

// The listing of a file, with the tables and the nodes' place lent.
fn list_file(
    file: &[u8],
    points: &mut [u32],
    corners: &mut [u16],
    neighbours: &mut [u16],
    work: &mut [u16],
    nodes: &mut [u32],
    out: &mut [u8],
) -> usize
    requires { longest ≤ length out.old }
    ensures { Wrote (read_text (read_answer file.now (length nodes.old)) (tables points.old corners.old neighbours.old) (length work.old) (file_nodes file.now))
        out.old 0 result out.new }
{
    match read_nodes(file, nodes) {
        Ok(header) => {
            list_nodes(
                header.x,
                header.y,
                header.z,
                points,
                corners,
                neighbours,
                work,
                &nodes[..3 * header.count as usize],
                out,
            )
        }
        Err(refusal) => write_refused(refusal, out),
    }
}

// The listing of a file, with room for 1,024 points and 4,096 cells.
pub fn list_input(file: &[u8], out: &mut [u8]) -> usize
    requires { longest ≤ length out.old }
    ensures { Wrote (listing_of file.now) out.old 0 result out.new }
{
    if file.len() > 65536 {
        return write_refused(Refusal::Trailer, out);
    }
    let mut points = [0u32; 3072];
    let mut corners = [0u16; 16384];
    let mut neighbours = [0u16; 16384];
    let mut work = [0u16; 12288];
    let mut nodes = [0u32; 3048];
    list_file(
        file,
        &mut points,
        &mut corners,
        &mut neighbours,
        &mut work,
        &mut nodes,
        out,
    )
}
