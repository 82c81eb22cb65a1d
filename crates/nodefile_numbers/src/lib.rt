// Numbers as bytes, low byte first; a file's bytes.

#![tactic(auto)]

ghost use Rattle.std.specs.Prelude.{◌≡◌, ◌*◌, ◌/◌, ◌≤◌, length};
ghost use Rattle.mesh.specs.Start.{over};
ghost use Rattle.nodefile.specs.Bytes.{numbers_of, bytes_of};
ghost use Rattle.nodefile.specs.Write.{file_of};
ghost use Rattle.nodefile.specs.Inner.{FileFits};

use nodefile::Header;

// The numbers of these bytes, from the front.
pub fn read_numbers(bytes: &[u8], numbers: &mut [u32])
    requires { length bytes.now / 4 ≤ length numbers.old }
    ensures { numbers.new ≡ over (numbers_of bytes.now) numbers.old }
{
    let (fours, _) = bytes.as_chunks::<4>();
    for (k, four) in fours.iter().enumerate() {
        numbers[k] = u32::from_le_bytes(*four);
    }
}

// The bytes of these numbers, from the front.
pub fn write_numbers(numbers: &[u32], bytes: &mut [u8])
    requires { 4 * length numbers.now ≤ length bytes.old }
    ensures { bytes.new ≡ over (bytes_of numbers.now) bytes.old }
{
    for (k, number) in numbers.iter().enumerate() {
        bytes[4 * k..4 * k + 4].copy_from_slice(&number.to_le_bytes());
    }
}

// The file of these sides and nodes, with no note. Answers the number of bytes.
pub fn write_file(head: Header, nodes: &[u32], out: &mut [u8]) -> u32
    requires { FileFits head nodes.now (length out.old) }
    ensures { (result ≡ length (file_of head nodes.now))
        × (out.new ≡ over (file_of head nodes.now) out.old) }
{
    write_numbers(nodes, out);
    let distance = 12 * head.count;
    let fields = [head.x, head.y, head.z, head.count, distance];
    write_numbers(&fields, &mut out[distance as usize..]);
    distance + 20
}
