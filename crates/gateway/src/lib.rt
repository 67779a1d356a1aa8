// The static library of a gateway: the calls that a host in C or Rust makes. include/waterbook.h says what each number means.
#![tactic(auto)]

ghost use Rattle.std.specs.Prelude.{◌≡◌, true, [], ◌∷◌};
ghost use Rattle.gateway.specs.Calls.{Enters, Steps, Voids, Clears, Collects, Grows, Shrinks, Adds, ReadsCard, ReadsReading, ReadsVoid, WritesCard, WritesReading, WritesVoid, WritesAnswer, WritesSheet};
ghost use Rattle.site.specs.Moves.{moved_number};
ghost use Rattle.text.specs.Reads.{number_read, taken_read, line_read};
ghost use Rattle.text.specs.Written.{written_given};
ghost use Rattle.journal.specs.Book.{BookGives};

use cell::{Card, Entry};
use site::Unmoved;
use text::{Read, Unread, Unwritten};

mod records;

// The number of a call with a record that has not its count of numbers.
const ILL_SHAPED: u32 = 255;

// And of an answer that a sheet does not take.
const NOT_ADDABLE: u32 = 11;

// One reading, given to the site.
#[unsafe(no_mangle)]
pub extern "C" fn waterbook_step(
    card: &[u32],
    soil: &[i64],
    rows: &mut [u32],
    reading: &[u32],
    amounts: &mut [i64],
) -> u32
    ensures { Steps card.now soil.now rows.old reading.now amounts.old result rows.new amounts.new }
{
    let Some(card) = card.as_array::<33>() else {
        return ILL_SHAPED;
    };
    let Some(reading) = reading.as_array::<10>() else {
        return ILL_SHAPED;
    };
    let Some(amounts) = amounts.as_mut_array::<10>() else {
        return ILL_SHAPED;
    };
    give(
        records::card_from(card),
        soil,
        rows,
        Entry::Reading(shapes::reading_from(reading)),
        amounts,
    )
}

// One void, given to the site.
#[unsafe(no_mangle)]
pub extern "C" fn waterbook_void(
    card: &[u32],
    soil: &[i64],
    rows: &mut [u32],
    notice: &[u32],
    amounts: &mut [i64],
) -> u32
    ensures { Voids card.now soil.now rows.old notice.now amounts.old result rows.new amounts.new }
{
    let Some(card) = card.as_array::<33>() else {
        return ILL_SHAPED;
    };
    let Some(notice) = notice.as_array::<3>() else {
        return ILL_SHAPED;
    };
    let Some(amounts) = amounts.as_mut_array::<10>() else {
        return ILL_SHAPED;
    };
    give(
        records::card_from(card),
        soil,
        rows,
        Entry::Void(shapes::notice_from(notice)),
        amounts,
    )
}

// One entry, given to the site: the amounts and the number of its answer.
fn give(card: Card, soil: &[i64], rows: &mut [u32], e: Entry, amounts: &mut [i64; 10]) -> u32
    ensures { Enters true card soil.now rows.old e amounts.old result rows.new amounts.new }
{
    let answer = site::step(card, soil, rows, e);
    *amounts = records::amount_numbers(cell::amounts_of(answer));
    cell::number_of(answer)
}

// Sets all rows of the site to 0.
#[unsafe(no_mangle)]
pub extern "C" fn waterbook_clear(card: &[u32], rows: &mut [u32]) -> u32
    ensures { Clears card.now rows.old result rows.new }
{
    let Some(card) = card.as_array::<33>() else {
        return ILL_SHAPED;
    };
    cell::number_of(site::clear(records::card_from(card), rows))
}

// Both sums of a cell, which are then 0.
#[unsafe(no_mangle)]
pub extern "C" fn waterbook_collect(
    card: &[u32],
    rows: &mut [u32],
    cell: u32,
    sums: &mut [u64],
) -> u32
    ensures { Collects card.now rows.old cell sums.old result rows.new sums.new }
{
    let Some(card) = card.as_array::<33>() else {
        return ILL_SHAPED;
    };
    let Some(sums) = sums.as_mut_array::<2>() else {
        return ILL_SHAPED;
    };
    let got = site::collect(records::card_from(card), rows, cell);
    let both = cell::sums_of(got);
    *sums = [both.runoff.0, both.drain.0];
    cell::number_of(got)
}

// Rows of 32 numbers into rows with sums.
#[unsafe(no_mangle)]
pub extern "C" fn waterbook_grow(card: &[u32], old: &[u32], rows: &mut [u32]) -> u32
    ensures { Grows card.now old.now rows.old result rows.new }
{
    let Some(card) = card.as_array::<33>() else {
        return ILL_SHAPED;
    };
    moved(site::grow(records::card_from(card), old, rows))
}

// And back, where nothing is in the sums.
#[unsafe(no_mangle)]
pub extern "C" fn waterbook_shrink(card: &[u32], rows: &[u32], old: &mut [u32]) -> u32
    ensures { Shrinks card.now rows.now old.old result old.new }
{
    let Some(card) = card.as_array::<33>() else {
        return ILL_SHAPED;
    };
    moved(site::shrink(records::card_from(card), rows, old))
}

// The number of what a move answers.
fn moved(answer: Result<(), Unmoved>) -> u32
    ensures { result ≡ moved_number answer }
{
    match answer {
        Ok(()) => 0,
        Err(why) => u32::from(why),
    }
}

// What was read of a text: `got` takes the bytes taken and the malformed line, and the call gives its number.
fn took<T: Copy>(read: Result<Read<T>, Unread>, got: &mut [usize; 2]) -> u32
    ensures { (result ≡ number_read read) × (got.new ≡ taken_read read ∷ line_read read ∷ []) }
{
    match read {
        Ok(r) => {
            *got = [r.taken, 0];
            0
        }
        Err(why) => {
            *got = [0, why.line()];
            u32::from(why)
        }
    }
}

// What was written of a text: `got` takes its length, or 0, and the call gives its number.
fn wrote(written: Result<usize, Unwritten>, got: &mut [usize; 2]) -> u32
    ensures { (result ≡ (written_given written).number) × (got.new ≡ (written_given written).len ∷ 0 ∷ []) }
{
    match written {
        Ok(len) => {
            *got = [len, 0];
            0
        }
        Err(why) => {
            *got = [0, 0];
            u32::from(why)
        }
    }
}

// Adds an answer, its number and its amounts, to a sheet.
#[unsafe(no_mangle)]
pub extern "C" fn waterbook_add(sheet: &mut [i64], number: u32, amounts: &[i64]) -> u32
    ensures { Adds sheet.old number amounts.now result sheet.new }
{
    let Some(sheet) = sheet.as_mut_array::<10>() else {
        return ILL_SHAPED;
    };
    let Some(amounts) = amounts.as_array::<10>() else {
        return ILL_SHAPED;
    };
    let fits = number == 0
        && records::signs(sheet, records::SHEET_RECHARGE)
        && records::signs(amounts, records::AMOUNTS_RECHARGE);
    if !fits {
        return NOT_ADDABLE;
    }
    let added = records::sheet_from(sheet).add(Ok(records::amounts_from(amounts)));
    if added.number != 0 {
        return added.number;
    }
    *sheet = records::sheet_numbers(added.sheet);
    0
}

// Reads a card at the start of a text.
#[tactic(auto, unfolding(crate::specs::Shapes::card_numbers))]
#[unsafe(no_mangle)]
pub extern "C" fn waterbook_read_card(
    text: &[u8],
    card: &mut [u32],
    soil: &mut [i64],
    got: &mut [usize],
) -> u32
    ensures { ReadsCard text.now card.old soil.old got.old result card.new soil.new got.new }
{
    let Some(card) = card.as_mut_array::<33>() else {
        return ILL_SHAPED;
    };
    let Some(got) = got.as_mut_array::<2>() else {
        return ILL_SHAPED;
    };
    let r = text::card::read(text, soil);
    *card = match r {
        Ok(r) => records::card_numbers(r.value),
        Err(_) => [0; 33],
    };
    took(r, got)
}

// Writes a card with its soil numbers at the start of a buffer.
#[unsafe(no_mangle)]
pub extern "C" fn waterbook_write_card(
    card: &[u32],
    soil: &[i64],
    buf: &mut [u8],
    got: &mut [usize],
) -> u32
    ensures { WritesCard card.now soil.now buf.old got.old result buf.new got.new }
{
    let Some(card) = card.as_array::<33>() else {
        return ILL_SHAPED;
    };
    let Some(got) = got.as_mut_array::<2>() else {
        return ILL_SHAPED;
    };
    wrote(text::card::write(records::card_from(card), soil, buf), got)
}

// Reads a reading at the start of a text.
#[tactic(auto, using(crate::proofs::Zeros::zero_reading))]
#[unsafe(no_mangle)]
pub extern "C" fn waterbook_read_reading(text: &[u8], reading: &mut [u32], got: &mut [usize]) -> u32
    ensures { ReadsReading text.now reading.old got.old result reading.new got.new }
{
    let Some(reading) = reading.as_mut_array::<10>() else {
        return ILL_SHAPED;
    };
    let Some(got) = got.as_mut_array::<2>() else {
        return ILL_SHAPED;
    };
    let r = text::reading::read(text);
    *reading = match r {
        Ok(r) => shapes::reading_numbers(r.value),
        Err(_) => [0; 10],
    };
    took(r, got)
}

// Writes a reading at the start of a buffer.
#[unsafe(no_mangle)]
pub extern "C" fn waterbook_write_reading(reading: &[u32], buf: &mut [u8], got: &mut [usize]) -> u32
    ensures { WritesReading reading.now buf.old got.old result buf.new got.new }
{
    let Some(reading) = reading.as_array::<10>() else {
        return ILL_SHAPED;
    };
    let Some(got) = got.as_mut_array::<2>() else {
        return ILL_SHAPED;
    };
    wrote(
        text::reading::write(shapes::reading_from(reading), buf),
        got,
    )
}

// Reads a void at the start of a text.
#[tactic(auto, using(crate::proofs::Zeros::no_notice))]
#[unsafe(no_mangle)]
pub extern "C" fn waterbook_read_void(text: &[u8], notice: &mut [u32], got: &mut [usize]) -> u32
    ensures { ReadsVoid text.now notice.old got.old result notice.new got.new }
{
    let Some(notice) = notice.as_mut_array::<3>() else {
        return ILL_SHAPED;
    };
    let Some(got) = got.as_mut_array::<2>() else {
        return ILL_SHAPED;
    };
    let r = text::void::read(text);
    *notice = match r {
        Ok(r) => shapes::notice_numbers(r.value),
        Err(_) => [0; 3],
    };
    took(r, got)
}

// Writes a void at the start of a buffer.
#[unsafe(no_mangle)]
pub extern "C" fn waterbook_write_void(notice: &[u32], buf: &mut [u8], got: &mut [usize]) -> u32
    ensures { WritesVoid notice.now buf.old got.old result buf.new got.new }
{
    let Some(notice) = notice.as_array::<3>() else {
        return ILL_SHAPED;
    };
    let Some(got) = got.as_mut_array::<2>() else {
        return ILL_SHAPED;
    };
    wrote(text::void::write(shapes::notice_from(notice), buf), got)
}

// Writes the line of an answer at the start of a buffer.
#[tactic(auto, using(crate::proofs::Printable::answer_prints))]
#[unsafe(no_mangle)]
pub extern "C" fn waterbook_write_answer(
    cell: u32,
    number: u32,
    amounts: &[i64],
    buf: &mut [u8],
    got: &mut [usize],
) -> u32
    ensures { WritesAnswer cell number amounts.now buf.old got.old result buf.new got.new }
{
    let Some(amounts) = amounts.as_array::<10>() else {
        return ILL_SHAPED;
    };
    let Some(got) = got.as_mut_array::<2>() else {
        return ILL_SHAPED;
    };
    if !records::is_answer(number, amounts) {
        return wrote(Err(Unwritten::Unfit), got);
    }
    wrote(
        text::print::line(cell, number, records::amounts_from(amounts), buf),
        got,
    )
}

// Writes the line of a sheet at the start of a buffer.
#[tactic(auto, using(crate::proofs::Printable::sheet_prints))]
#[unsafe(no_mangle)]
pub extern "C" fn waterbook_write_sheet(sheet: &[i64], buf: &mut [u8], got: &mut [usize]) -> u32
    ensures { WritesSheet sheet.now buf.old got.old result buf.new got.new }
{
    let Some(sheet) = sheet.as_array::<10>() else {
        return ILL_SHAPED;
    };
    let Some(got) = got.as_mut_array::<2>() else {
        return ILL_SHAPED;
    };
    if !records::signs(sheet, records::SHEET_RECHARGE) {
        return wrote(Err(Unwritten::Unfit), got);
    }
    wrote(text::print::sheet(records::sheet_from(sheet), buf), got)
}

// Writes the book of a journal at the start of a buffer.
#[unsafe(no_mangle)]
pub extern "C" fn waterbook_book(journal: &[u8], buf: &mut [u8]) -> usize
    ensures { BookGives journal.now buf.old result buf.new }
{
    journal::book(journal, buf)
}
