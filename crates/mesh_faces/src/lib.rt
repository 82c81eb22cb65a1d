// The faces of a mesh: each on a wall, or shared with a cell on its far side that names it back.

#![tactic(auto)]

ghost use Rattle.std.specs.Prelude.{◌≡◌, ◌<◌, get_or};
ghost use Rattle.arith.specs.Table.{all_below};
ghost use Rattle.mesh.specs.Tables.{tables_before};
ghost use Rattle.mesh.specs.Inner.{Sound, CornersBelow};
ghost use Rattle.mesh.specs.Inner.Faces.{first, second, third, place_in, odd_order, faces_back, face_test, faces_of};

use mesh::{Cell, Mesh, NONE};
use mesh_tables::{Places, is_freed, load, other_places, point_at};
use mesh_walls::on_one_wall;

// A face of a cell: its place there, its corners, and what lies across.
#[derive(Clone, Copy)]
struct Face {
    cell: usize,
    place: usize,
    p: u16,
    q: u16,
    r: u16,
    across: u16,
}

fn face_of(cell: usize, entries: Cell, i: usize) -> Face
    requires { i < 4 }
    ensures { result ≡ record {
      cell = cell;
      place = i;
      p = get_or entries.corners (first i) 0;
      q = get_or entries.corners (second i) 0;
      r = get_or entries.corners (third i) 0;
      across = get_or entries.neighbours i 0;
    } }
{
    let Places {
        first,
        second,
        third,
    } = other_places(i);
    Face {
        cell,
        place: i,
        p: entries.corners[first],
        q: entries.corners[second],
        r: entries.corners[third],
        across: entries.neighbours[i],
    }
}

// The first place that has v, 8 where none does: by multiplication, since branches on where a point stands cannot be foreseen.
fn place_in(b: [u16; 4], v: u16) -> usize
    ensures { result ≡ place_in b v }
{
    let e0 = usize::from(b[0] != v);
    let e1 = usize::from(b[1] != v);
    let e2 = usize::from(b[2] != v);
    let e3 = usize::from(b[3] != v);
    e0 * (1 + e1 * (1 + e2 * (1 + 5 * e3)))
}

fn odd_order(i: usize, k: usize, p: usize, q: usize, r: usize) -> bool
    requires { (i < 4) × (k < 4) }
    ensures { result ≡ odd_order i k p q r }
{
    (i + k + usize::from(q < p) + usize::from(r < p) + usize::from(r < q)) % 2 == 1
}

// The cell across has the face's corners, names its cell back there, and lies on the far side.
fn faces_back(face: Face, far: Cell) -> bool
    requires { face.place < 4 }
    ensures { result ≡ faces_back face.cell face.place face.p face.q face.r far }
{
    let p = place_in(far.corners, face.p);
    let q = place_in(far.corners, face.q);
    let r = place_in(far.corners, face.r);
    let sum = p + q + r;
    if !(3..=6).contains(&sum) {
        return false;
    }
    let k = 6 - sum;
    usize::from(far.neighbours[k]) == face.cell && odd_order(face.place, k, p, q, r)
}

fn face_passes(mesh: Mesh, points: &[u32], corners: &[u16], neighbours: &[u16], face: Face) -> bool
    requires { Sound points.now corners.now neighbours.now mesh.points mesh.used × (face.place < 4)
        × (face.p < mesh.points) × (face.q < mesh.points) × (face.r < mesh.points) }
    ensures { result ≡ face_test mesh.x mesh.y mesh.z (tables_before points corners neighbours) mesh.used
        face.cell face.place face.p face.q face.r face.across }
{
    if face.across == NONE {
        let p = point_at(points, usize::from(face.p));
        let q = point_at(points, usize::from(face.q));
        let r = point_at(points, usize::from(face.r));
        on_one_wall(mesh.x, mesh.y, mesh.z, p, q, r)
    } else {
        u32::from(face.across) < mesh.used
            && faces_back(face, load(corners, neighbours, usize::from(face.across)))
    }
}

// A freed entry has no faces.
fn cell_faces_pass(
    mesh: Mesh,
    points: &[u32],
    corners: &[u16],
    neighbours: &[u16],
    c: usize,
) -> bool
    requires { Sound points.now corners.now neighbours.now mesh.points mesh.used × (c < mesh.used)
        × CornersBelow corners.now mesh.points mesh.used }
    ensures { result ≡ faces_of mesh.x mesh.y mesh.z (tables_before points corners neighbours) mesh.used c }
{
    let cell = load(corners, neighbours, c);
    if is_freed(cell.corners) {
        return true;
    }
    for i in 0..4 {
        if !face_passes(mesh, points, corners, neighbours, face_of(c, cell, i)) {
            return false;
        }
    }
    true
}

// Every face of every cell.
pub fn faces_pass(mesh: Mesh, points: &[u32], corners: &[u16], neighbours: &[u16]) -> bool
    requires { Sound points.now corners.now neighbours.now mesh.points mesh.used
        × CornersBelow corners.now mesh.points mesh.used }
    ensures { result ≡ all_below mesh.used
        (faces_of mesh.x mesh.y mesh.z (tables_before points corners neighbours) mesh.used) }
{
    (0..mesh.used as usize).all(|c| cell_faces_pass(mesh, points, corners, neighbours, c))
}
