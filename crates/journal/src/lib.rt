// The journal: everything that the program prints for its input.
#![tactic(auto)]

ghost use Rattle.std.specs.Prelude.{◌≡◌, ◌+◌, ◌≤◌, ◌<◌, ◌^◌, leb, length};
ghost use Rattle.std.proofs.lemmas.List.Edits.{sets};
ghost use Rattle.journal.specs.Book.{cleared_text, room_for, BookGives};

use cell::Card;
use text::Read;

mod entries;
mod lines;

// Whether a buffer of `room` bytes suffices for an input of `len` bytes.
fn has_room(len: usize, room: usize) -> bool
    ensures { result ≡ leb (room_for len) room }
{
    300 <= room && len <= (room - 300) / 5
}

// Clears the site, then writes a line for each entry of `rest` and the sheet.
fn cleared(card: Card, soil: &[i64], rows: &mut [u32], rest: &[u8], out: &mut [u8]) -> usize
    requires { (length rest.now < 2 ^ 62) × (length (cleared_text card soil.now rows.old rest.now) ≤ length out.old) }
    ensures { (result ≡ length (cleared_text card soil.now rows.old rest.now))
        × (out.new ≡ sets out.old 0 (cleared_text card soil.now rows.old rest.now)) }
{
    match site::clear(card, rows) {
        Err(why) => lines::put_code(why, out, 0),
        Ok(()) => entries::put_entries(card, soil, rows, rest, card.cells as usize + 2, out),
    }
}

// Writes the book of the input at the start of out, and returns its length; 0 where out has not 5 bytes for each of the input and 300 more.
pub fn book(input: &[u8], out: &mut [u8]) -> usize
    ensures { BookGives input.now out.old result out.new }
{
    if !has_room(input.len(), out.len()) {
        return 0;
    }
    if 65536 < input.len() {
        return lines::put_malformed(0, out, 0);
    }
    let mut soil = [0i64; 1280];
    let (taken, card) = match text::card::read(input, &mut soil) {
        Ok(Read { taken, value }) => (taken, value),
        Err(why) => return lines::put_malformed(why.line(), out, 0),
    };
    let mut rows = [0u32; 9216];
    let cells = card.cells as usize;
    let soil_end = 5 * cells;
    let rows_end = 36 * cells;
    cleared(
        card,
        &soil[..soil_end],
        &mut rows[..rows_end],
        &input[taken..],
        out,
    )
}
