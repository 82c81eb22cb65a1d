// The cells of a mesh as text.

#![tactic(auto)]

ghost use Rattle.std.specs.Prelude.{◌+◌, ◌≤◌, [], length};
ghost use Rattle.mesh.specs.Tables.{tables};
ghost use Rattle.mesh.specs.Inner.{HasCell, Celled};
ghost use Rattle.lines.specs.Text.{concat_below};
ghost use Rattle.lines.specs.Listing.{cell_line, entry_text};
ghost use Rattle.lines.specs.Inner.{Wrote};
ghost use Rattle.lines_cells.specs.Words.{word, four_words};

use lines_text::{write_bytes, write_decimal, write_number};
use mesh::NONE;
use mesh_tables::{four_at, is_freed};

// A dash for the number `none`.
#[tactic(auto, unfolding(crate::specs::Words::word))]
fn write_word(none: Option<u16>, number: u16, out: &mut [u8], at: usize) -> usize
    requires { at + length (word none number) ≤ length out.old }
    ensures { Wrote (word none number) out.old at result out.new }
{
    if Some(number) == none {
        write_bytes(b" -", out, at)
    } else {
        write_number(b" ", u32::from(number), out, at)
    }
}

fn write_four(none: Option<u16>, numbers: [u16; 4], out: &mut [u8], at: usize) -> usize
    requires { at + length (four_words none numbers) ≤ length out.old }
    ensures { Wrote (four_words none numbers) out.old at result out.new }
{
    let mut next = at;
    for number in numbers {
        next = write_word(none, number, out, next);
    }
    next
}

fn write_cell(corners: &[u16], neighbours: &[u16], cell: usize, out: &mut [u8], at: usize) -> usize
    requires { HasCell cell corners.now × HasCell cell neighbours.now
        × (at + length (cell_line (tables [] corners.now neighbours.now) cell) ≤ length out.old) }
    ensures { Wrote (cell_line (tables [] corners.now neighbours.now) cell) out.old at result out.new }
{
    let second = write_decimal(cell as u32, out, at);
    let third = write_four(None, four_at(corners, cell), out, second);
    let fourth = write_four(Some(NONE), four_at(neighbours, cell), out, third);
    write_bytes(b"\n", out, fourth)
}

// A freed entry has no line.
fn write_entry(corners: &[u16], neighbours: &[u16], c: usize, out: &mut [u8], at: usize) -> usize
    requires { HasCell c corners.now × HasCell c neighbours.now
        × (at + length (entry_text (tables [] corners.now neighbours.now) c) ≤ length out.old) }
    ensures { Wrote (entry_text (tables [] corners.now neighbours.now) c) out.old at result out.new }
{
    if is_freed(four_at(corners, c)) {
        at
    } else {
        write_cell(corners, neighbours, c, out, at)
    }
}

// The cells among the first `used` entries, by rising number.
pub fn write_cells(
    corners: &[u16],
    neighbours: &[u16],
    used: usize,
    out: &mut [u8],
    at: usize,
) -> usize
    requires { Celled corners.now used × Celled neighbours.now used
        × (at + length (concat_below used (entry_text (tables [] corners.now neighbours.now))) ≤ length out.old) }
    ensures { Wrote (concat_below used (entry_text (tables [] corners.now neighbours.now))) out.old at result out.new }
{
    let mut next = at;
    for c in 0..used {
        next = write_entry(corners, neighbours, c, out, next);
    }
    next
}
