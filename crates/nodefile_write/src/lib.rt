// Writing a node file: the call.

#![tactic(auto)]

ghost use Rattle.std.specs.Prelude.{◌≡◌, length};
ghost use Rattle.mesh.specs.Tables.{tables_before};
ghost use Rattle.mesh.specs.Start.{over};
ghost use Rattle.refusal.specs.Refusal.{refused_by};
ghost use Rattle.nodefile.specs.Write.{mesh_file, write_refusal, as_written, WriteLeaves};
ghost use Rattle.nodefile.specs.Inner.{Writable};

use mesh::Mesh;
use mesh_check::test_mesh;
use mesh_tables::clear;
use nodefile::Header;
use nodefile_numbers::write_file;
use refusal::Refusal;

fn test(
    mesh: Mesh,
    points: &[u32],
    corners: &[u16],
    neighbours: &[u16],
    work: usize,
    room: usize,
) -> Result<(), Refusal>
    ensures { refused_by result ≡ write_refusal mesh (tables_before points corners neighbours) work room }
{
    test_mesh(mesh, points, corners, neighbours, work, false)?;
    let count = mesh.points as usize - 8;
    if room < 12 * count + 20 {
        Err(Refusal::NoPlace)
    } else {
        Ok(())
    }
}

// Points 8 onward. Answers the number of bytes.
fn write_mesh(mesh: Mesh, points: &[u32], out: &mut [u8]) -> u32
    requires { Writable mesh points.now (length out.old) }
    ensures { (result ≡ length (mesh_file mesh points.now))
        × (out.new ≡ over (mesh_file mesh points.now) out.old) }
{
    let head = Header {
        x: mesh.x,
        y: mesh.y,
        z: mesh.z,
        count: mesh.points - 8,
    };
    write_file(head, &points[24..3 * mesh.points as usize], out)
}

// The nodes of a mesh as a file, with no note. Answers the number of bytes.
pub fn write_nodes(
    mesh: Mesh,
    points: &[u32],
    corners: &[u16],
    neighbours: &[u16],
    work: &mut [u16],
    out: &mut [u8],
) -> Result<u32, Refusal>
    ensures { WriteLeaves mesh (tables_before points corners neighbours)
        work.old out.old (as_written result) work.new out.new }
{
    clear(work);
    test(mesh, points, corners, neighbours, work.len(), out.len())?;
    Ok(write_mesh(mesh, points, out))
}
