// A mesh as text.

#![tactic(auto)]

ghost use Rattle.std.specs.Prelude.{◌+◌, ◌≤◌, [], length};
ghost use Rattle.mesh.specs.Tables.{tables};
ghost use Rattle.mesh.specs.Inner.{Celled};
ghost use Rattle.lines.specs.Listing.{box_line, mesh_text};
ghost use Rattle.lines.specs.Inner.{Wrote};

use lines_cells::write_cells;
use lines_text::{write_bytes, write_number};
use mesh::Mesh;

fn write_box(mesh: Mesh, out: &mut [u8], at: usize) -> usize
    requires { at + length (box_line mesh) ≤ length out.old }
    ensures { Wrote (box_line mesh) out.old at result out.new }
{
    let y = write_number(b"box ", mesh.x, out, at);
    let z = write_number(b" ", mesh.y, out, y);
    let points = write_number(b" ", mesh.z, out, z);
    let cells = write_number(b" points ", mesh.points, out, points);
    let end = write_number(b" cells ", mesh.cells, out, cells);
    write_bytes(b"\n", out, end)
}

// The sides and counts, then a line a cell.
pub fn write_mesh(mesh: Mesh, corners: &[u16], neighbours: &[u16], out: &mut [u8]) -> usize
    requires { Celled corners.now mesh.used × Celled neighbours.now mesh.used
        × (length (mesh_text mesh (tables [] corners.now neighbours.now)) ≤ length out.old) }
    ensures { Wrote (mesh_text mesh (tables [] corners.now neighbours.now)) out.old 0 result out.new }
{
    let next = write_box(mesh, out, 0);
    write_cells(corners, neighbours, mesh.used as usize, out, next)
}
