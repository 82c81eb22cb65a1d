// Two node files in one: the call.

#![tactic(auto)]

ghost use Rattle.std.specs.Prelude.{◌≡◌, ◌*◌, ◌≤◌, length};
ghost use Rattle.nodefile.specs.Read.{as_read};
ghost use Rattle.nodefile.specs.Write.{as_written};
ghost use Rattle.merging.specs.Merge.{MergeLeaves, same_sides};
ghost use Rattle.merging.specs.Inner.{positions_in, SecondRead, BothRead, KeptLeaves};

use merging_filter::keep_firsts;
use mesh_tables::points_in_box;
use nodefile::Header;
use nodefile_numbers::write_file;
use nodefile_read::read_nodes;
use refusal::Refusal;

#[tactic(auto, unfolding(merging::specs::Merge::same_sides))]
fn same_sides(a: Header, b: Header) -> bool
    ensures { result ≡ same_sides a b }
{
    a.x == b.x && a.y == b.y && a.z == b.z
}

// The second file's nodes after those of the first, whose header is head.
fn read_second(head: Header, second: &[u8], nodes: &mut [u32]) -> Result<Header, Refusal>
    requires { (head.count ≤ 1016) × (6096 ≤ length nodes.old) }
    ensures { SecondRead head second.now nodes.old (as_read result) nodes.new }
{
    let at = 3 * head.count as usize;
    let other = read_nodes(second, &mut nodes[at..])?;
    if !same_sides(head, other) {
        return Err(Refusal::UnequalSides);
    }
    Ok(Header {
        count: head.count + other.count,
        ..head
    })
}

// The nodes of both files, with their box and how many they are.
fn read_both(first: &[u8], second: &[u8], nodes: &mut [u32]) -> Result<Header, Refusal>
    requires { 6096 ≤ length nodes.old }
    ensures { BothRead first.now second.now (as_read result) nodes.new }
{
    let head = read_nodes(first, nodes)?;
    read_second(head, second, nodes)
}

// The file of the nodes that are left of these. Answers the number of bytes.
fn write_kept(head: Header, nodes: &mut [u32], out: &mut [u8]) -> Result<u32, Refusal>
    requires { (head.count ≤ 2032) × (3 * head.count ≤ length nodes.old) }
    ensures { KeptLeaves head (positions_in head.count nodes.old) out.old (as_written result) out.new }
{
    if !points_in_box(head.x, head.y, head.z, nodes, head.count) {
        return Err(Refusal::Outside);
    }
    let count = keep_firsts(head, nodes);
    if count > 1016 {
        return Err(Refusal::PointsFull);
    }
    if out.len() < 12 * count as usize + 20 {
        return Err(Refusal::NoPlace);
    }
    let left = &nodes[..3 * count as usize];
    Ok(write_file(Header { count, ..head }, left, out))
}

// The nodes of two files as one file, each position a single time, with no note. Answers the number of bytes.
pub fn merge(first: &[u8], second: &[u8], out: &mut [u8]) -> Result<u32, Refusal>
    ensures { MergeLeaves first.now second.now out.old (as_written result) out.new }
{
    let mut nodes = [0u32; 6096];
    let head = read_both(first, second, &mut nodes)?;
    write_kept(head, &mut nodes, out)
}
