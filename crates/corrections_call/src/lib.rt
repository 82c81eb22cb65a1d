// Reading the correction of a position, and setting that of a point: the calls.

#![tactic(auto)]

ghost use Rattle.std.specs.Prelude.{◌≡◌, length};
ghost use Rattle.refusal.specs.Refusal.{refused_by};
ghost use Rattle.mesh.specs.Tables.{tables_before, cleared};
ghost use Rattle.corrections.specs.Corrections.{as_corrected};
ghost use Rattle.corrections.specs.Calls.{is_correction, set_refusal, set_table, correction_call};

use corrections::Correction;
use corrections_tests::test_tables;
use corrections_value::{correction_in, in_range, out_of_range, put_correction};
use geometry::Position;
use geometry::volume::in_box;
use locate_first::first_holder;
use mesh::Mesh;
use mesh_tables::clear;
use refusal::Refusal;

// The correction of a position, from the cell in which it is located.
pub fn correction(
    mesh: Mesh,
    points: &[u32],
    corners: &[u16],
    neighbours: &[u16],
    work: &mut [u16],
    corrections: &[i32],
    q: Position,
) -> Result<Correction, Refusal>
    ensures { (as_corrected result ≡ correction_call mesh (tables_before points corners neighbours) corrections.now (length work.old) q)
        × (work.new ≡ cleared work.old) }
{
    clear(work);
    test_tables(
        mesh,
        points,
        corners,
        neighbours,
        corrections,
        work.len(),
        false,
    )?;
    if !in_box(mesh.x, mesh.y, mesh.z, q) {
        return Err(Refusal::Outside);
    }
    let np = mesh.points as usize;
    if out_of_range(corrections, np) {
        return Err(Refusal::OutOfRange);
    }
    let Some(c) = first_holder(points, corners, np, mesh.used as usize, q) else {
        return Err(Refusal::Unheld);
    };
    Ok(correction_in(points, corners, corrections, c, q))
}

#[tactic(auto, unfolding(corrections::specs::Calls::is_correction))]
fn is_correction(d: Correction) -> bool
    ensures { result ≡ is_correction d }
{
    in_range(d.x) && in_range(d.y) && in_range(d.z)
}

// Sets the three numbers of a point.
pub fn set_correction(
    mesh: Mesh,
    points: &[u32],
    corners: &[u16],
    neighbours: &[u16],
    work: &mut [u16],
    corrections: &mut [i32],
    point: u32,
    d: Correction,
) -> Result<(), Refusal>
    ensures { (refused_by result ≡ set_refusal mesh (tables_before points corners neighbours) corrections.old (length work.old) point d)
        × (corrections.new ≡ set_table mesh (tables_before points corners neighbours) corrections.old (length work.old) point d)
        × (work.new ≡ cleared work.old) }
{
    clear(work);
    test_tables(
        mesh,
        points,
        corners,
        neighbours,
        corrections,
        work.len(),
        false,
    )?;
    if mesh.points <= point {
        return Err(Refusal::NoPoint);
    }
    if !is_correction(d) || out_of_range(corrections, mesh.points as usize) {
        return Err(Refusal::OutOfRange);
    }
    put_correction(corrections, point as usize, d);
    Ok(())
}
