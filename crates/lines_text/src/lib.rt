// Words and numbers as text.

#![tactic(auto)]

ghost use Rattle.std.specs.Prelude.{◌+◌, ◌≤◌, ◌<◌, ◌++◌, length};
ghost use Rattle.lines.specs.Text.{digit, decimal};
ghost use Rattle.lines.specs.Inner.{Wrote};

const POWERS: [u32; 10] = [
    1,
    10,
    100,
    1_000,
    10_000,
    100_000,
    1_000_000,
    10_000_000,
    100_000_000,
    1_000_000_000,
];

pub fn write_bytes(bytes: &[u8], out: &mut [u8], at: usize) -> usize
    requires { at + length bytes.now ≤ length out.old }
    ensures { Wrote bytes.now out.old at result out.new }
{
    let end = at + bytes.len();
    out[at..end].copy_from_slice(bytes);
    end
}

// Digit p of the number, or nothing before its first digit.
fn write_digit(number: u32, p: usize, out: &mut [u8], at: usize) -> usize
    requires { (p < 10) × (at + length (digit number p) ≤ length out.old) }
    ensures { Wrote (digit number p) out.old at result out.new }
{
    let high = number / POWERS[p];
    if p > 0 && high == 0 {
        return at;
    }
    out[at] = b'0' + (high % 10) as u8;
    at + 1
}

pub fn write_decimal(number: u32, out: &mut [u8], at: usize) -> usize
    requires { at + length (decimal number) ≤ length out.old }
    ensures { Wrote (decimal number) out.old at result out.new }
{
    let mut next = at;
    for i in 0..10 {
        next = write_digit(number, 9 - i, out, next);
    }
    next
}

// A word, and a number after it.
pub fn write_number(word: &[u8], number: u32, out: &mut [u8], at: usize) -> usize
    requires { at + length (word.now ++ decimal number) ≤ length out.old }
    ensures { Wrote (word.now ++ decimal number) out.old at result out.new }
{
    let next = write_bytes(word, out, at);
    write_decimal(number, out, next)
}
