// Reading a node file: the call.

#![tactic(auto)]

ghost use Rattle.std.specs.Prelude.{◌≡◌, ◌≤◌, IfOk, length};
ghost use Rattle.refusal.specs.Refusal.{refused_by};
ghost use Rattle.nodefile.specs.Read.{header, distance, wrong_trailer, read_refusal, as_read, ReadLeaves};

use mesh_sizes::legal_box;
use nodefile::Header;
use nodefile_numbers::read_numbers;
use refusal::Refusal;

// The length of a trailer, in bytes.
const TRAILER: usize = 20;

// The sides and the count that a file ends with, and its distance.
fn read_trailer(file: &[u8]) -> (Header, u32)
    requires { 20 ≤ length file.now }
    ensures { (result.0 ≡ header file.now) × (result.1 ≡ distance file.now) }
{
    let mut fields = [0u32; 5];
    read_numbers(&file[file.len() - TRAILER..], &mut fields);
    let [x, y, z, count, distance] = fields;
    (Header { x, y, z, count }, distance)
}

// The count is tested first, so that 12 times it cannot wrap.
#[tactic(auto, unfolding(nodefile::specs::Read::wrong_trailer))]
fn wrong_trailer(count: u32, distance: u32, before: usize) -> bool
    ensures { result ≡ wrong_trailer count distance before }
{
    count > 1016 || distance != 12 * count || before < distance as usize
}

// The sides and the count of a file whose nodes can be read into so much room.
#[tactic(auto, unfolding(nodefile::specs::Read::read_refusal))]
fn read_header(file: &[u8], room: usize) -> Result<Header, Refusal>
    ensures refused { refused_by result ≡ read_refusal file.now room }
    ensures read { IfOk result (λ h. h ≡ header file.now) }
{
    if file.len() < TRAILER {
        return Err(Refusal::Trailer);
    }
    let (header, distance) = read_trailer(file);
    if wrong_trailer(header.count, distance, file.len() - TRAILER) {
        Err(Refusal::Trailer)
    } else if !legal_box(header.x, header.y, header.z) {
        Err(Refusal::Box)
    } else if room < 3 * header.count as usize {
        Err(Refusal::NoPlace)
    } else {
        Ok(header)
    }
}

// The sides and the nodes of a file, as they stand.
pub fn read_nodes(file: &[u8], nodes: &mut [u32]) -> Result<Header, Refusal>
    ensures { ReadLeaves file.now nodes.old (as_read result) nodes.new }
{
    let header = read_header(file, nodes.len())?;
    let end = file.len() - TRAILER;
    let start = end - 12 * header.count as usize;
    read_numbers(&file[start..end], nodes);
    Ok(header)
}
