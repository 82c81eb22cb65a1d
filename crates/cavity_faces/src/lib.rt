// The faces of a cavity's cells, visible or hidden, and the points that are on a visible one.

#![tactic(auto)]

ghost use Rattle.std.specs.Prelude.{[], ◌≡◌, ◌≢◌, ℕ, ◌≤◌, ◌<◌, length, get_or, set};
ghost use Rattle.geometry.specs.Volume.{InRange};
ghost use Rattle.mesh.specs.Tables.{none, tables, tables_in, tables_before, IsCell};
ghost use Rattle.mesh.specs.Inner.{four_at, SomeMesh};
ghost use Rattle.cavity.specs.Inner.{Enumerated};
ghost use Rattle.cavity.specs.Inner.Correction.{wall_kind, face_kind, face_kinds, kinds_code, with_face, with_faces, NoneExposed, CornersListed, without_corners, InspectedTo};

use cavity::{HIDDEN, Node, VISIBLE};
use geometry::volume::volumes_at;
use mesh::NONE;
use mesh_tables::{four_at, load, other_places, positions};

const NEITHER: u8 = 0;

// A face on a wall, with the node at this volume from it; a coplanar one is neither visible nor hidden.
#[tactic(auto, unfolding(cavity::specs::Inner::Correction::wall_kind))]
fn wall_kind(side: i64) -> u8
    ensures { result ≡ wall_kind side }
{
    if side > 0 {
        VISIBLE
    } else if side < 0 {
        HIDDEN
    } else {
        NEITHER
    }
}

// A face with u across it: between two cells of the cavity it is neither.
#[tactic(auto, unfolding(cavity::specs::Inner::Correction::face_kind))]
fn face_kind(state: &[u8], u: u16, v: i64) -> u8
    requires { u ≢ none → u < length state.now }
    ensures { result ≡ face_kind state.now u v }
{
    if u == NONE {
        wall_kind(v)
    } else if state[usize::from(u)] != 0 {
        NEITHER
    } else if v > 0 {
        VISIBLE
    } else {
        HIDDEN
    }
}

fn face_kinds(
    points: &[u32],
    corners: &[u16],
    neighbours: &[u16],
    node: Node,
    state: &[u8],
    c: usize,
) -> [u8; 4]
    requires { SomeMesh (tables_in points corners neighbours) node.points node.used × InRange node.position
        × (length state.now ≡ 4096) × IsCell (tables_in points corners neighbours) node.used c }
    ensures { result ≡ face_kinds (tables_before points corners neighbours) node.position state.now c }
{
    let cell = load(corners, neighbours, c);
    let u = cell.neighbours;
    let v = volumes_at(positions(points, cell.corners), node.position);
    [
        face_kind(state, u[0], v.v0),
        face_kind(state, u[1], v.v1),
        face_kind(state, u[2], v.v2),
        face_kind(state, u[3], v.v3),
    ]
}

#[tactic(auto, unfolding(cavity::specs::Inner::Correction::kinds_code))]
fn code_of(k: [u8; 4]) -> u8
    requires { (i : ℕ) → i < 4 → get_or k i 0 ≤ 16 }
    ensures { result ≡ kinds_code k }
{
    k[0] + 2 * k[1] + 4 * k[2] + 8 * k[3]
}

// The points of a visible face are exposed.
#[tactic(auto, unfolding(cavity::specs::Inner::Correction::with_face))]
fn mark_face(exposed: &mut [u8], kind: u8, a: u16, b: u16, c: u16)
    requires { (a < length exposed.old) × (b < length exposed.old) × (c < length exposed.old) }
    ensures { exposed.new ≡ with_face exposed.old kind a b c }
{
    if kind == VISIBLE {
        exposed[usize::from(a)] = 1;
        exposed[usize::from(b)] = 1;
        exposed[usize::from(c)] = 1;
    }
}

fn mark_faces(exposed: &mut [u8], k: [u8; 4], v: [u16; 4])
    requires { (j : ℕ) → j < 4 → get_or v j 0 < length exposed.old }
    ensures { exposed.new ≡ with_faces 4 exposed.old k v }
{
    for i in 0..4 {
        let at = other_places(i);
        mark_face(exposed, k[i], v[at.first], v[at.second], v[at.third]);
    }
}

// The code of a cell's faces, and the points of its visible ones.
fn inspect(
    points: &[u32],
    corners: &[u16],
    neighbours: &[u16],
    node: Node,
    state: &[u8],
    c: usize,
    faces: &mut [u8],
    exposed: &mut [u8],
)
    requires { SomeMesh (tables_in points corners neighbours) node.points node.used × InRange node.position × (length state.now ≡ 4096) × IsCell (tables_in points corners neighbours) node.used c
        × (length faces.old ≡ 4096) × (length exposed.old ≡ 1024) }
    ensures { (faces.new ≡ set faces.old c (kinds_code (face_kinds (tables_before points corners neighbours) node.position state.now c)))
        × (exposed.new ≡ with_faces 4 exposed.old (face_kinds (tables_before points corners neighbours) node.position state.now c)
        (four_at corners.now c)) }
{
    let k = face_kinds(points, corners, neighbours, node, state, c);
    faces[c] = code_of(k);
    mark_faces(exposed, k, four_at(corners, c));
}

// Four points are marked no longer.
fn hide(exposed: &mut [u8], k: [u16; 4])
    requires { (j : ℕ) → j < 4 → get_or k j 0 < length exposed.old }
    ensures { exposed.new ≡ without_corners exposed.old k }
{
    for v in k {
        exposed[usize::from(v)] = 0;
    }
}

// No corner of a listed cell is marked: these are all that a round asks for, so that marks of earlier rounds and nodes may stay elsewhere.
pub fn hide_corners(corners: &[u16], list: &[u16], size: usize, exposed: &mut [u8])
    requires { CornersListed corners.now list.now size × (length exposed.old ≡ 1024) }
    ensures { NoneExposed (tables [] corners.now []) list.now size exposed.new }
{
    for &c in &list[..size] {
        hide(exposed, four_at(corners, usize::from(c)));
    }
}

// The listed cells one by one.
pub fn inspect_all(
    points: &[u32],
    corners: &[u16],
    neighbours: &[u16],
    node: Node,
    state: &[u8],
    list: &[u16],
    size: usize,
    faces: &mut [u8],
    exposed: &mut [u8],
)
    requires { SomeMesh (tables_in points corners neighbours) node.points node.used × InRange node.position × Enumerated (tables_in points corners neighbours) node.used state.now list.now size
        × InspectedTo (tables_in points corners neighbours) node.used node.position state.now list.now size 0 faces.old exposed.old }
    ensures { InspectedTo (tables_before points corners neighbours) node.used node.position state.now list.now size size
        faces.new exposed.new }
{
    for &c in &list[..size] {
        inspect(
            points,
            corners,
            neighbours,
            node,
            state,
            usize::from(c),
            faces,
            exposed,
        );
    }
}
