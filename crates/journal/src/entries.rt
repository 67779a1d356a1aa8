// The entries, one after the other.
ghost use Rattle.std.specs.Prelude.{◌≡◌, ◌+◌, ◌≤◌, ◌<◌, ◌^◌, length};
ghost use Rattle.std.proofs.lemmas.List.Edits.{sets};
ghost use Rattle.site.specs.Sheet.{no_steps};
ghost use Rattle.journal.specs.Book.{entries_text};

use crate::lines;
use cell::Card;
use site::Sheet;
use text::Read;

// Writes a line for each entry of s and the sheet; `first` is the number of the line that stands first in s.
pub fn put_entries(
    card: Card,
    soil: &[i64],
    rows: &mut [u32],
    s: &[u8],
    first: usize,
    out: &mut [u8],
) -> usize
    requires { (first + length s.now < 2 ^ 63)
        × (length (entries_text (length s.now) card soil.now rows.old no_steps first s.now) ≤ length out.old) }
    ensures { (result ≡ length (entries_text (length s.now) card soil.now rows.old no_steps first s.now))
        × (out.new ≡ sets out.old 0 (entries_text (length s.now) card soil.now rows.old no_steps first s.now)) }
{
    let mut sheet = Sheet::new();
    let mut rest = s;
    let mut line = first;
    let mut end = 0;
    while !rest.is_empty() {
        let Ok(Read { taken, value }) = text::entry::read(rest) else {
            return lines::put_malformed(line, out, end);
        };
        let answer = site::step(card, soil, rows, value);
        end = lines::put_answer(value, answer, out, end);
        let added = sheet.add(answer);
        sheet = added.sheet;
        rest = &rest[taken..];
        line += 1;
    }
    lines::put_sheet(sheet, out, end)
}
