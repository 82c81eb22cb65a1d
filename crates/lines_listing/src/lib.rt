// The listing of a node file.

#![tactic(auto)]

ghost use Rattle.std.specs.Prelude.{◌≤◌, length};
ghost use Rattle.nodefile.specs.Write.{as_written};
ghost use Rattle.lines.specs.Listing.{ListingLeaves};
ghost use Rattle.lines.specs.Inner.{longest};

use lines_file::list_input;
use lines_text::write_bytes;
use refusal::Refusal;

// The listing is written whole before any of it comes to the output.
fn copy_listing(file: &[u8], text: &mut [u8], out: &mut [u8]) -> Result<u32, Refusal>
    requires { longest ≤ length text.old }
    ensures { ListingLeaves file.now out.old (as_written result) out.new }
{
    let length = list_input(file, text);
    if out.len() < length {
        return Err(Refusal::NoPlace);
    }
    write_bytes(&text[..length], out, 0);
    Ok(length as u32)
}

// Writes the listing of a file and answers how many bytes it has.
pub fn listing(file: &[u8], out: &mut [u8]) -> Result<u32, Refusal>
    ensures { ListingLeaves file.now out.old (as_written result) out.new }
{
    let mut text = [0u8; 409600];
    copy_listing(file, &mut text, out)
}
