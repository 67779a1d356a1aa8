// Each line that is printed, put into the buffer at its place.
ghost use Rattle.std.specs.Prelude.{◌≡◌, ◌+◌, ◌≤◌, ◌<◌, ◌^◌, length};
ghost use Rattle.std.proofs.lemmas.List.Edits.{sets};
ghost use Rattle.cell.specs.Ranges.{cell_of};
ghost use Rattle.cell.specs.Refusals.{amounts_of, refusal_number};
ghost use Rattle.site.specs.SheetLaws.{AmountsWithin, SheetIn};
ghost use Rattle.text.specs.Printed.{answer_text, sheet_text};
ghost use Rattle.journal.specs.Book.{code_text, malformed_text};

use cell::{Answer, Entry, Refusal};
use form::line::put_form;
use site::Sheet;

const CODE: [u8; 7] = *b"code=#\n";

const MALFORMED: [u8; 15] = *b"code=12 line=#\n";

// The line of a card that clearing refuses.
pub fn put_code(why: Refusal, out: &mut [u8], at: usize) -> usize
    requires { at + length (code_text (refusal_number why)) ≤ length out.old }
    ensures { (result ≡ at + length (code_text (refusal_number why))) × (out.new ≡ sets out.old at (code_text (refusal_number why))) }
{
    put_form(&CODE, &[i64::from(u32::from(why))], 0, out, at)
}

// The line that stands for a malformed one.
pub fn put_malformed(line: usize, out: &mut [u8], at: usize) -> usize
    requires { (line < 2 ^ 63) × (at + length (malformed_text line) ≤ length out.old) }
    ensures { (result ≡ at + length (malformed_text line)) × (out.new ≡ sets out.old at (malformed_text line)) }
{
    put_form(&MALFORMED, &[line as i64], 0, out, at)
}

// The line of an entry's answer.
pub fn put_answer(e: Entry, answer: Answer, out: &mut [u8], at: usize) -> usize
    requires { AmountsWithin (amounts_of answer) × (at + length (answer_text (cell_of e) answer) ≤ length out.old) }
    ensures { (result ≡ at + length (answer_text (cell_of e) answer)) × (out.new ≡ sets out.old at (answer_text (cell_of e) answer)) }
{
    at + text::print::answer(cell::cell_of(e), answer, &mut out[at..]).unwrap_or(0)
}

// The line of the sheet.
pub fn put_sheet(sheet: Sheet, out: &mut [u8], at: usize) -> usize
    requires { SheetIn sheet × (at + length (sheet_text sheet) ≤ length out.old) }
    ensures { (result ≡ at + length (sheet_text sheet)) × (out.new ≡ sets out.old at (sheet_text sheet)) }
{
    at + text::print::sheet(sheet, &mut out[at..]).unwrap_or(0)
}
