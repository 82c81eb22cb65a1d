// Entries of the lent tables: points, and the four corners and neighbours of a cell; places in a cell.

#![tactic(auto)]

ghost use Rattle.std.specs.Prelude.{◌≡◌, ℕ, ◌*◌, ◌≤◌, ◌<◌, length, get_or};
ghost use Rattle.arith.specs.Table.{all_below};
ghost use Rattle.geometry.specs.Volume.{in_box};
ghost use Rattle.mesh.specs.Tables.{cleared, point_in};
ghost use Rattle.mesh.specs.Inner.{four_at, with_four, with_point, cell_at, positions_of, HasCell, HasPoint};
ghost use Rattle.mesh.specs.Inner.Cells.{four_freed};
ghost use Rattle.mesh.specs.Inner.Faces.{first, second, third};

use geometry::volume::in_box;
use geometry::{Position, Tetrahedron};
use mesh::{Cell, NONE};

// Three places of a cell.
#[derive(Clone, Copy)]
pub struct Places {
    pub first: usize,
    pub second: usize,
    pub third: usize,
}

#[tactic(auto, unfolding(mesh::specs::Tables::point_in))]
pub fn point_at(points: &[u32], k: usize) -> Position
    requires { HasPoint k points.now }
    ensures { result ≡ point_in points.now k }
{
    let at = 3 * k;
    Position {
        x: points[at],
        y: points[at + 1],
        z: points[at + 2],
    }
}

pub fn put_point(points: &mut [u32], k: usize, p: Position)
    requires { HasPoint k points.old }
    ensures { points.new ≡ with_point points.old k p }
{
    points[3 * k..3 * k + 3].copy_from_slice(&[p.x, p.y, p.z]);
}

// The first points lie in a box.
pub fn points_in_box(x: u32, y: u32, z: u32, points: &[u32], count: u32) -> bool
    requires { 3 * count ≤ length points.now }
    ensures { result ≡ all_below count (λ k. in_box x y z (point_in points.now k)) }
{
    (0..count as usize).all(|k| in_box(x, y, z, point_at(points, k)))
}

// The corners of a cell, by their point numbers.
pub fn positions(points: &[u32], k: [u16; 4]) -> Tetrahedron
    requires { (i : ℕ) → i < 4 → HasPoint (get_or k i 0) points.now }
    ensures { result ≡ positions_of points.now k }
{
    Tetrahedron {
        a: point_at(points, usize::from(k[0])),
        b: point_at(points, usize::from(k[1])),
        c: point_at(points, usize::from(k[2])),
        d: point_at(points, usize::from(k[3])),
    }
}

#[tactic(auto, unfolding(mesh::specs::Inner::four_at))]
pub fn four_at(s: &[u16], c: usize) -> [u16; 4]
    requires { HasCell c s.now }
    ensures { result ≡ four_at s.now c }
{
    let at = 4 * c;
    [s[at], s[at + 1], s[at + 2], s[at + 3]]
}

// Whether the entry with the corners k is freed.
#[tactic(auto, unfolding(mesh::specs::Inner::Cells::four_freed, arith::specs::Table::all_below))]
pub fn is_freed(k: [u16; 4]) -> bool
    ensures { result ≡ four_freed k }
{
    k[0] == NONE && k[1] == NONE && k[2] == NONE && k[3] == NONE
}

// The places of a cell other than i, rising: those of the corners of face i.
pub fn other_places(i: usize) -> Places
    requires { i < 4 }
    ensures { result ≡ record { first = first i; second = second i; third = third i } }
{
    Places {
        first: usize::from(i == 0),
        second: 1 + usize::from(i < 2),
        third: 3 - usize::from(i == 3),
    }
}

pub fn put_four(s: &mut [u16], c: usize, v: [u16; 4])
    requires { HasCell c s.old }
    ensures { s.new ≡ with_four s.old c v }
{
    s[4 * c..4 * c + 4].copy_from_slice(&v);
}

#[tactic(auto, unfolding(mesh::specs::Inner::cell_at))]
pub fn load(corners: &[u16], neighbours: &[u16], c: usize) -> Cell
    requires { HasCell c corners.now × HasCell c neighbours.now }
    ensures { result ≡ cell_at corners.now neighbours.now c }
{
    Cell {
        corners: four_at(corners, c),
        neighbours: four_at(neighbours, c),
    }
}

pub fn store(corners: &mut [u16], neighbours: &mut [u16], c: usize, cell: Cell)
    requires { HasCell c corners.old × HasCell c neighbours.old }
    ensures { (corners.new ≡ with_four corners.old c cell.corners)
        × (neighbours.new ≡ with_four neighbours.old c cell.neighbours) }
{
    put_four(corners, c, cell.corners);
    put_four(neighbours, c, cell.neighbours);
}

// Zero over the whole length.
pub fn clear(s: &mut [u16])
    ensures { s.new ≡ cleared s.old }
{
    s.fill(0);
}
