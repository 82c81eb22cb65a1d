// The cells that a segment touches: the call.

#![tactic(auto)]

ghost use Rattle.std.specs.Prelude.{cond, [], ◌≡◌, ◌≤◌, ltb, length};
ghost use Rattle.geometry.specs.Volume.{InRange};
ghost use Rattle.mesh.specs.Tables.{tables, tables_before};
ghost use Rattle.mesh.specs.Start.{over};
ghost use Rattle.mesh.specs.Inner.{Solid};
ghost use Rattle.segment.specs.Call.{Count, Refused, as_counted, segment_cells, SegmentLeaves};

use geometry::Position;
use geometry::volume::in_box;
use locate_holding::may_hold;
use mesh::Mesh;
use mesh_check::test_mesh;
use mesh_tables::{clear, four_at};
use refusal::Refusal;
use segment_codes::{line_codes, range_codes};
use segment_test::cell_touches;

// Writes the cells among n entries that the segment touches, rising, and answers how many.
fn list_cells(
    points: &[u32],
    corners: &[u16],
    np: usize,
    n: usize,
    a: Position,
    b: Position,
    found: &mut [u16],
) -> usize
    requires { Solid points.now corners.now np n × InRange a × InRange b × (n ≤ length found.old) }
    ensures { (result ≡ length (segment_cells (tables points.now corners.now []) n a b))
        × (found.new ≡ over (segment_cells (tables points.now corners.now []) n a b) found.old) }
{
    let line = line_codes(points, np, a, b);
    let range = range_codes(points, np, a, b);
    let mut count = 0;
    for c in 0..n {
        let k = four_at(corners, c);
        if may_hold(&line, k) && may_hold(&range, k) && cell_touches(points, k, a, b) {
            found[count] = c as u16;
            count += 1;
        }
    }
    count
}

// The numbers found, where they fit.
fn put_cells(found: &[u16], out: &mut [u16]) -> Result<u32, Refusal>
    requires { length found.now ≤ 4096 }
    ensures { (as_counted result ≡ cond (ltb (length out.old) (length found.now)) (Refused 10) (Count (length found.now)))
        × (out.new ≡ cond (ltb (length out.old) (length found.now)) out.old (over found.now out.old)) }
{
    if out.len() < found.len() {
        return Err(Refusal::NoPlace);
    }
    // The library's copy would have the archive call memmove, which gantry.h does not ask of the C library.
    for i in 0..found.len() {
        out[i] = found[i];
    }
    Ok(found.len() as u32)
}

// The cells that the segment from a to b touches, in rising number. They are found in the work area, so that a refusal leaves the output.
pub fn segment_cells(
    mesh: Mesh,
    points: &[u32],
    corners: &[u16],
    neighbours: &[u16],
    work: &mut [u16],
    a: Position,
    b: Position,
    out: &mut [u16],
) -> Result<u32, Refusal>
    ensures { SegmentLeaves mesh (tables_before points corners neighbours) work.old a b out.old
        (as_counted result) work.new out.new }
{
    clear(work);
    test_mesh(mesh, points, corners, neighbours, work.len(), false)?;
    if !in_box(mesh.x, mesh.y, mesh.z, a) || !in_box(mesh.x, mesh.y, mesh.z, b) {
        return Err(Refusal::Outside);
    }
    let count = list_cells(
        points,
        corners,
        mesh.points as usize,
        mesh.used as usize,
        a,
        b,
        work,
    );
    let answer = put_cells(&work[..count], out);
    clear(work);
    answer
}
