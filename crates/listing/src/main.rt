// A node file from standard input; its listing to standard output. The text is decided in `lines`.

#![tactic(auto)]

ghost use Rattle.std.specs.Prelude.{IfOk, ◌≤◌, length};

use lines_listing::listing;
use std::io;
use std::io::Read;

// Reads until the buffer is full or the input ends, and answers how many bytes it has.
fn read_full(input: &mut impl Read, buffer: &mut [u8]) -> io::Result<usize>
    ensures { IfOk result (λ got. got ≤ length buffer.new) }
{
    let mut got = 0;
    // What ends it is what the input gives.
    while got < buffer.len() {
        let more = input.read(&mut buffer[got..])?;
        if more == 0 {
            break;
        }
        got += more;
    }
    Ok(got)
}

fn main(rt: HostRuntime) -> io::Result<()> {
    // One byte more than is accepted, so that a longer input shows.
    let mut file = [0u8; 65537];
    // As many bytes as the longest listing has.
    let mut out = [0u8; 409600];
    let got = read_full(&mut rt.stdin(), &mut file)?;
    match listing(&file[..got], &mut out) {
        Ok(length) => rt.stdout().write_all(&out[..length as usize]),
        Err(_) => rt.stderr().write_all(b"listing: the output is too short\n"),
    }
}
