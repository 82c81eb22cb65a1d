// Each position a single time, box corners left out: the nodes that are left move to the front, in their order. A hash table finds a position
// in a few steps. It lies in fixed memory, since no call takes memory of the heap: an entry is 0 where its place is empty, else one more than
// a node's number.

#![tactic(auto)]

ghost use Rattle.std.specs.Prelude.{◌≡◌, ◌+◌, ◌*◌, ◌≤◌, ◌<◌, length};
ghost use Rattle.merging.specs.Inner.{at_end, is_corner, hash_of, Indexed, ProbeEnds, Roomy, Filters, FilteredAll};

use geometry::Position;
use mesh_tables::{point_at, put_point};
use nodefile::Header;

fn at_end(side: u32, v: u32) -> bool
    ensures { result ≡ at_end side v }
{
    v == 0 || v == side
}

#[tactic(auto, unfolding(merging::specs::Inner::is_corner))]
fn is_corner(head: Header, p: Position) -> bool
    ensures { result ≡ is_corner head p }
{
    at_end(head.x, p.x) && at_end(head.y, p.y) && at_end(head.z, p.z)
}

// merging/specs/Inner says why these factors.
#[tactic(auto, unfolding(merging::specs::Inner::hash_of))]
fn hash(p: Position) -> usize
    ensures { result ≡ hash_of p }
{
    let sum = 879579789 * u64::from(p.x) + 720527587 * u64::from(p.y) + 590236393 * u64::from(p.z);
    (sum / 524288 % 2048) as usize
}

// The place at which the search for p ends. The table names the first count nodes.
fn probe(table: &[u16], nodes: &[u32], count: usize, p: Position) -> usize
    requires { Indexed nodes.now table.now count × Roomy nodes.now table.now count }
    ensures { ProbeEnds nodes.now table.now p result }
{
    let mut at = hash(p);
    // The entries decide where it ends: `Roomy` says that a place is empty.
    while table[at] != 0 {
        let node = usize::from(table[at]) - 1;
        if point_at(nodes, node) == p {
            return at;
        }
        at += 1;
    }
    at
}

// Node i joins the first count where its position is new. Answers how many they are then.
fn keep(head: Header, nodes: &mut [u32], table: &mut [u16], count: usize, i: usize) -> usize
    requires { Indexed nodes.old table.old count × Roomy nodes.old table.old count × (count ≤ i) × (i < 2032) × (3 * i + 3 ≤ length nodes.old) }
    ensures { Filters head nodes.old table.old i count nodes.new table.new result }
{
    let p = point_at(nodes, i);
    if is_corner(head, p) {
        return count;
    }
    let at = probe(table, nodes, count, p);
    if table[at] != 0 {
        return count;
    }
    put_point(nodes, count, p);
    table[at] = (count + 1) as u16;
    count + 1
}

// Answers how many nodes are left.
pub fn keep_firsts(head: Header, nodes: &mut [u32]) -> u32
    requires { (head.count ≤ 2032) × (3 * head.count ≤ length nodes.old) }
    ensures { FilteredAll head nodes.old result nodes.new }
{
    let mut table = [0u16; 4096];
    let mut count = 0;
    for i in 0..head.count as usize {
        count = keep(head, nodes, &mut table, count, i);
    }
    count as u32
}
