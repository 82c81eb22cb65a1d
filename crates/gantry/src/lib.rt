// The C interface: `include/gantry.h` declares these calls. Each hands its numbers to the call of a lower crate and turns that one's answer
// into the interface's numbers.

#![tactic(auto)]

ghost use Rattle.std.specs.Prelude.{true, ◌≡◌, ◌≤◌, ◌^◌, nat_abs, length};
ghost use Rattle.geometry.specs.Volume.{position, are_all_coordinates, volume_of_numbers};
ghost use Rattle.insphere.specs.Sphere.{sphere_sum, sphere_call};
ghost use Rattle.mesh.specs.Tables.{tables_before, tables_after, cleared, tables};
ghost use Rattle.mesh.specs.Check.{is_mesh};
ghost use Rattle.cavity.specs.Answers.{sphere, handed};
ghost use Rattle.corrections.specs.Calls.{set_refusal, set_table};
ghost use Rattle.gantry_numbers.specs.Numbers.{tested_of};
ghost use Rattle.gantry_numbers.specs.Promises.{Starts, Inserts, Looks, InsertsMarked, Lists, Locates, ListsCells, Corrects, Reads, Writes, Merges, GivesNear};

use corrections::Correction;
use corrections_call::{correction, set_correction};
use corrections_list::insert_list;
use corrections_look::look;
use corrections_marked::insert_marked;
use corrections_single::{insert, insert_answers};
use corrections_start::start;
use gantry_numbers::{
    GantryCorrected, GantryCounted, GantryInserted, GantryListed, GantryLocated, GantryLooked,
    GantryRead, GantrySphere, GantryStarted, GantryWritten, inserted, listed,
};
use geometry::Position;
use geometry::volume::volume6;
use insphere::sphere_test;
use locate_call::locate;
use merging_call::merge;
use mesh::Mesh;
use mesh_check::check;
use nodefile_read::read_nodes;
use nodefile_write::write_nodes;
use segment_call::segment_cells;

#[unsafe(no_mangle)]
pub extern "C" fn gantry_volume6(
    ax: i32,
    ay: i32,
    az: i32,
    bx: i32,
    by: i32,
    bz: i32,
    cx: i32,
    cy: i32,
    cz: i32,
    dx: i32,
    dy: i32,
    dz: i32,
) -> i64
    ensures value { result ≡ volume_of_numbers ax ay az bx by bz cx cy cz dx dy dz }
    ensures within { are_all_coordinates ax ay az bx by bz cx cy cz dx dy dz ≡ true → nat_abs result ≤ 2 ^ 52 }
{
    volume6(ax, ay, az, bx, by, bz, cx, cy, cz, dx, dy, dz)
}

#[tactic(auto, using(gantry_numbers::proofs::Handing::gives_near))]
#[unsafe(no_mangle)]
pub extern "C" fn gantry_sphere_test(
    ax: u32,
    ay: u32,
    az: u32,
    bx: u32,
    by: u32,
    bz: u32,
    cx: u32,
    cy: u32,
    cz: u32,
    dx: u32,
    dy: u32,
    dz: u32,
    px: u32,
    py: u32,
    pz: u32,
) -> GantrySphere
    ensures value { result ≡ tested_of (sphere_call (position ax ay az) (position bx by bz) (position cx cy cz) (position dx dy dz) (position px py pz)) }
    ensures near { GivesNear (sphere_sum (position ax ay az) (position bx by bz) (position cx cy cz) (position dx dy dz) (position px py pz)) result }
{
    sphere_test(
        Position {
            x: ax,
            y: ay,
            z: az,
        },
        Position {
            x: bx,
            y: by,
            z: bz,
        },
        Position {
            x: cx,
            y: cy,
            z: cz,
        },
        Position {
            x: dx,
            y: dy,
            z: dz,
        },
        Position {
            x: px,
            y: py,
            z: pz,
        },
    )
    .into()
}

#[unsafe(no_mangle)]
pub extern "C" fn gantry_start(
    x: u32,
    y: u32,
    z: u32,
    points: &mut [u32],
    corners: &mut [u16],
    neighbours: &mut [u16],
    work: &mut [u16],
    corrections: &mut [i32],
) -> GantryStarted
    ensures { Starts x y z (tables points.old corners.old neighbours.old) work.old corrections.old
        result (tables points.new corners.new neighbours.new) work.new corrections.new }
{
    start(x, y, z, points, corners, neighbours, work, corrections).into()
}

#[unsafe(no_mangle)]
pub extern "C" fn gantry_insert(
    mesh: Mesh,
    points: &mut [u32],
    corners: &mut [u16],
    neighbours: &mut [u16],
    work: &mut [u16],
    corrections: &mut [i32],
    x: u32,
    y: u32,
    z: u32,
) -> GantryInserted
    ensures { Inserts mesh (tables points.old corners.old neighbours.old) work.old corrections.old (position x y z) sphere
        result (tables points.new corners.new neighbours.new) work.new corrections.new }
{
    let q = Position { x, y, z };
    let answer = insert(mesh, points, corners, neighbours, work, corrections, q);
    inserted(mesh, answer)
}

#[unsafe(no_mangle)]
pub extern "C" fn gantry_insert_answers(
    mesh: Mesh,
    points: &mut [u32],
    corners: &mut [u16],
    neighbours: &mut [u16],
    work: &mut [u16],
    corrections: &mut [i32],
    answers: &[u8],
    x: u32,
    y: u32,
    z: u32,
) -> GantryInserted
    ensures { Inserts mesh (tables points.old corners.old neighbours.old) work.old corrections.old (position x y z) (handed answers.now)
        result (tables points.new corners.new neighbours.new) work.new corrections.new }
{
    let q = Position { x, y, z };
    let answer = insert_answers(
        mesh,
        points,
        corners,
        neighbours,
        work,
        corrections,
        answers,
        q,
    );
    inserted(mesh, answer)
}

#[unsafe(no_mangle)]
pub extern "C" fn gantry_look(
    mesh: Mesh,
    points: &[u32],
    corners: &[u16],
    neighbours: &[u16],
    work: &mut [u16],
    corrections: &[i32],
    marks: &mut [u8],
    x: u32,
    y: u32,
    z: u32,
) -> GantryLooked
    ensures { Looks mesh (tables_before points corners neighbours) work.old corrections.now (position x y z) marks.old
        result (tables_after points corners neighbours) work.new marks.new }
{
    let q = Position { x, y, z };
    look(
        mesh,
        points,
        corners,
        neighbours,
        work,
        corrections,
        marks,
        q,
    )
    .into()
}

#[unsafe(no_mangle)]
pub extern "C" fn gantry_insert_marked(
    mesh: Mesh,
    points: &mut [u32],
    corners: &mut [u16],
    neighbours: &mut [u16],
    work: &mut [u16],
    corrections: &mut [i32],
    marks: &[u8],
    x: u32,
    y: u32,
    z: u32,
) -> GantryInserted
    ensures { InsertsMarked mesh (tables points.old corners.old neighbours.old) work.old corrections.old (position x y z) marks.now
        result (tables points.new corners.new neighbours.new) work.new corrections.new }
{
    let q = Position { x, y, z };
    let answer = insert_marked(
        mesh,
        points,
        corners,
        neighbours,
        work,
        corrections,
        marks,
        q,
    );
    inserted(mesh, answer)
}

#[unsafe(no_mangle)]
pub extern "C" fn gantry_insert_list(
    mesh: Mesh,
    points: &mut [u32],
    corners: &mut [u16],
    neighbours: &mut [u16],
    work: &mut [u16],
    corrections: &mut [i32],
    nodes: &[u32],
) -> GantryListed
    ensures { Lists mesh (tables points.old corners.old neighbours.old) work.old corrections.old nodes.now
        result (tables points.new corners.new neighbours.new) work.new corrections.new }
{
    let answer = insert_list(mesh, points, corners, neighbours, work, corrections, nodes);
    listed(mesh, answer)
}

#[unsafe(no_mangle)]
pub extern "C" fn gantry_locate(
    mesh: Mesh,
    points: &[u32],
    corners: &[u16],
    neighbours: &[u16],
    work: &mut [u16],
    x: u32,
    y: u32,
    z: u32,
) -> GantryLocated
    ensures { Locates mesh (tables_before points corners neighbours) work.old (position x y z)
        result work.new }
{
    let q = Position { x, y, z };
    locate(mesh, points, corners, neighbours, work, q).into()
}

#[unsafe(no_mangle)]
pub extern "C" fn gantry_drive_cells(
    mesh: Mesh,
    points: &[u32],
    corners: &[u16],
    neighbours: &[u16],
    work: &mut [u16],
    ax: u32,
    ay: u32,
    az: u32,
    bx: u32,
    by: u32,
    bz: u32,
    cells: &mut [u16],
) -> GantryCounted
    ensures { ListsCells mesh (tables_before points corners neighbours) work.old (position ax ay az) (position bx by bz) cells.old
        result work.new cells.new }
{
    let a = Position {
        x: ax,
        y: ay,
        z: az,
    };
    let b = Position {
        x: bx,
        y: by,
        z: bz,
    };
    segment_cells(mesh, points, corners, neighbours, work, a, b, cells).into()
}

#[unsafe(no_mangle)]
pub extern "C" fn gantry_correction(
    mesh: Mesh,
    points: &[u32],
    corners: &[u16],
    neighbours: &[u16],
    work: &mut [u16],
    corrections: &[i32],
    x: u32,
    y: u32,
    z: u32,
) -> GantryCorrected
    ensures { Corrects mesh (tables_before points corners neighbours) work.old corrections.now (position x y z)
        result work.new }
{
    let q = Position { x, y, z };
    correction(mesh, points, corners, neighbours, work, corrections, q).into()
}

#[unsafe(no_mangle)]
pub extern "C" fn gantry_set_correction(
    mesh: Mesh,
    points: &[u32],
    corners: &[u16],
    neighbours: &[u16],
    work: &mut [u16],
    corrections: &mut [i32],
    point: u32,
    x: i32,
    y: i32,
    z: i32,
) -> u8
    ensures { (result ≡ set_refusal mesh (tables_before points corners neighbours) corrections.old (length work.old) point record { x = x; y = y; z = z })
        × (corrections.new ≡ set_table mesh (tables_before points corners neighbours) corrections.old (length work.old) point record { x = x; y = y; z = z })
        × (work.new ≡ cleared work.old) }
{
    let d = Correction { x, y, z };
    let answer = set_correction(
        mesh,
        points,
        corners,
        neighbours,
        work,
        corrections,
        point,
        d,
    );
    match answer {
        Ok(()) => 0,
        Err(refusal) => refusal.number(),
    }
}

#[unsafe(no_mangle)]
pub extern "C" fn gantry_check(
    mesh: Mesh,
    points: &[u32],
    corners: &[u16],
    neighbours: &[u16],
    work: &mut [u16],
) -> bool
    ensures { (result ≡ is_mesh mesh (tables_before points corners neighbours) (length work.old))
        × (work.new ≡ cleared work.old) }
{
    check(mesh, points, corners, neighbours, work)
}

#[unsafe(no_mangle)]
pub extern "C" fn gantry_read_nodes(file: &[u8], nodes: &mut [u32]) -> GantryRead
    ensures { Reads file.now nodes.old result nodes.new }
{
    read_nodes(file, nodes).into()
}

#[unsafe(no_mangle)]
pub extern "C" fn gantry_write_nodes(
    mesh: Mesh,
    points: &[u32],
    corners: &[u16],
    neighbours: &[u16],
    work: &mut [u16],
    out: &mut [u8],
) -> GantryWritten
    ensures { Writes mesh (tables_before points corners neighbours) work.old out.old
        result work.new out.new }
{
    write_nodes(mesh, points, corners, neighbours, work, out).into()
}

#[unsafe(no_mangle)]
pub extern "C" fn gantry_merge(first: &[u8], second: &[u8], out: &mut [u8]) -> GantryWritten
    ensures { Merges first.now second.now out.old result out.new }
{
    merge(first, second, out).into()
}
