// The cells of a mesh: corner numbers, volumes and their sum, that every point is a corner of one, and how many there are.

#![tactic(auto)]

ghost use Rattle.std.specs.Prelude.{[], ◌≡◌, ◌≢◌, ◌<◌, ◌*◌, MatchOption, length, get_or};
ghost use Rattle.mesh.specs.Tables.{tables};
ghost use Rattle.mesh.specs.Mesh.{LegalSide};
ghost use Rattle.mesh.specs.Inner.{Placed, Celled};
ghost use Rattle.mesh.specs.Inner.Cells.{numbers_below, volume_or_zero, with_marks, all_marked, cells_pass};

use geometry::volume::volume;
use mesh::Mesh;
use mesh_tables::{four_at, is_freed, positions};

// Whether the numbers k are all below np.
fn all_below(k: [u16; 4], np: u32) -> bool
    ensures { result ≡ numbers_below np k }
{
    k.iter().all(|&v| u32::from(v) < np)
}

// The six-fold volume of a cell with the corners k: none where it is not above 0, or a number is no point's.
fn positive_volume(points: &[u32], np: u32, k: [u16; 4]) -> Option<u64>
    requires { Placed points.now np }
    ensures { MatchOption result (volume_or_zero points.now np k ≡ 0)
        (λ v. (v ≢ 0) × (v ≡ volume_or_zero points.now np k)) }
{
    if !all_below(k, np) {
        return None;
    }
    let v = volume(positions(points, k));
    if v > 0 { Some(v.unsigned_abs()) } else { None }
}

fn mark(marked: &mut [u8], k: [u16; 4])
    requires { (get_or k 0 0 < length marked.old) × (get_or k 1 0 < length marked.old)
        × (get_or k 2 0 < length marked.old) × (get_or k 3 0 < length marked.old) }
    ensures { marked.new ≡ with_marks marked.old k }
{
    for v in k {
        marked[usize::from(v)] = 1;
    }
}

fn all_marked(marked: &[u8]) -> bool
    ensures { result ≡ all_marked marked.now (length marked.now) }
{
    marked.iter().all(|&m| m == 1)
}

fn box_volume(x: u32, y: u32, z: u32) -> u64
    requires { LegalSide x × LegalSide y × LegalSide z }
    ensures { result ≡ 6 * x * y * z }
{
    6 * u64::from(x) * u64::from(y) * u64::from(z)
}

// Corner numbers, volumes, their sum, the cell count, and that every point is a corner: one pass over the entries in use.
// Only an entry that is no good cell is asked whether it is freed, so that cells pay nothing for it.
pub fn cells_pass(mesh: Mesh, points: &[u32], corners: &[u16]) -> bool
    requires { LegalSide mesh.x × LegalSide mesh.y × LegalSide mesh.z
        × Placed points.now mesh.points × Celled corners.now mesh.used }
    ensures { result ≡ cells_pass mesh (tables points.now corners.now []) }
{
    let mut marked = [0u8; 1024];
    let mut left = box_volume(mesh.x, mesh.y, mesh.z);
    let mut freed = 0;
    for c in 0..mesh.used {
        let k = four_at(corners, c as usize);
        match positive_volume(points, mesh.points, k) {
            Some(v) if v <= left => {
                left -= v;
                mark(&mut marked, k);
            }
            None if is_freed(k) => freed += 1,
            _ => return false,
        }
    }
    left == 0 && mesh.used - freed == mesh.cells && all_marked(&marked[..mesh.points as usize])
}
