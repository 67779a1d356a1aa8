// The lines that the program prints.
ghost use Rattle.std.specs.Prelude.{◌≡◌, true};
ghost use Rattle.cell.specs.Refusals.{amounts_of};
ghost use Rattle.text.specs.Printed.{answer_vals, line_text, answer_text, sheet_vals, sheet_text, amounts_printable, sheet_printable, line_checks};
ghost use Rattle.text.specs.Written.{Writes, written_given};

use crate::{Unwritten, put_line};
use cell::{Amounts, Answer};
use site::Sheet;

const ANSWER: [u8; 102] =
    *b"cell=# code=# inflow=$ runoff=$ etvad=$ etstor=$ etsat=$ drain=$ release=$ stored=$ recharge=$ left=$\n";

const SHEET: [u8; 89] =
    *b"steps=$ inflow=$ runoff=$ etvad=$ etstor=$ etsat=$ drain=$ release=$ stored=$ recharge=$\n";

// The most that a signed number of 64 bits holds.
const MOST: u64 = 9223372036854775807;

#[tactic(auto, unfolding(crate::specs::Printed::amounts_printable))]
fn amounts_printable(a: Amounts) -> bool
    ensures { result ≡ amounts_printable a }
{
    a.waters_within(MOST)
}

#[tactic(auto, unfolding(crate::specs::Printed::sheet_printable))]
fn sheet_printable(s: Sheet) -> bool
    ensures { result ≡ sheet_printable s }
{
    (s.steps <= MOST) & s.waters_within(MOST)
}

fn answer_values(cell: u32, number: u32, a: Amounts) -> [i64; 12]
    requires { amounts_printable a ≡ true }
    ensures { result ≡ answer_vals cell number a }
{
    [
        i64::from(cell),
        i64::from(number),
        a.inflow.0 as i64,
        a.runoff.0 as i64,
        a.etvad.0 as i64,
        a.etstor.0 as i64,
        a.etsat.0 as i64,
        a.drain.0 as i64,
        a.release.0 as i64,
        a.stored.0 as i64,
        a.recharge.0,
        a.left.0 as i64,
    ]
}

fn sheet_values(s: Sheet) -> [i64; 10]
    requires { sheet_printable s ≡ true }
    ensures { result ≡ sheet_vals s }
{
    [
        s.steps as i64,
        s.inflow.0 as i64,
        s.runoff.0 as i64,
        s.etvad.0 as i64,
        s.etstor.0 as i64,
        s.etsat.0 as i64,
        s.drain.0 as i64,
        s.release.0 as i64,
        s.stored.0 as i64,
        s.recharge.0,
    ]
}

// Writes the line of a cell, a number and ten amounts at the start of buf.
pub fn line(cell: u32, number: u32, a: Amounts, buf: &mut [u8]) -> Result<usize, Unwritten>
    ensures { Writes (line_checks (amounts_printable a) (line_text cell number a) buf.old) (line_text cell number a) buf.old (written_given result) buf.new }
{
    if !amounts_printable(a) {
        return Err(Unwritten::Unfit);
    }
    let v = answer_values(cell, number, a);
    put_line(&ANSWER, &v, buf)
}

// Writes the line of an answer for a cell at the start of buf.
pub fn answer(cell: u32, answer: Answer, buf: &mut [u8]) -> Result<usize, Unwritten>
    ensures { Writes (line_checks (amounts_printable (amounts_of answer)) (answer_text cell answer) buf.old) (answer_text cell answer) buf.old (written_given result) buf.new }
{
    line(cell, cell::number_of(answer), cell::amounts_of(answer), buf)
}

// Writes the line of a sheet at the start of buf.
pub fn sheet(s: Sheet, buf: &mut [u8]) -> Result<usize, Unwritten>
    ensures { Writes (line_checks (sheet_printable s) (sheet_text s) buf.old) (sheet_text s) buf.old (written_given result) buf.new }
{
    if !sheet_printable(s) {
        return Err(Unwritten::Unfit);
    }
    let v = sheet_values(s);
    put_line(&SHEET, &v, buf)
}
