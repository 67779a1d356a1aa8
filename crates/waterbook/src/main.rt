// Reads a journal from standard input and prints its book.
#![tactic(auto)]

ghost use Rattle.std.specs.Prelude.{◌≡◌, ◌≤◌, ◌<◌, length, take, IfOk};
ghost use Rattle.std.specs.Io.KnownBytes.{Consumes, IsAtEnd};

use std::io;
use std::io::Read;

// Room for the longest journal, and for the byte by which one is too long.
fn input_room() -> [u8; 65537]
    ensures { 65537 ≡ length result }
{
    [0; 65537]
}

// Room for the book of any of these: 5 bytes for each of the journal's, and 300 more.
fn book_room() -> [u8; 327985]
    ensures { 327985 ≡ length result }
{
    [0; 327985]
}

// Reads until the buffer is full or the input has ended, and returns how many bytes that were.
fn read_full<R: Read>(from: &mut R, into: &mut [u8]) -> io::Result<usize>
    ensures within { IfOk result (λ n. n ≤ length into.old) }
    ensures bytes { IfOk result (λ n. Consumes (R.remaining from.old) (R.remaining from.new) (take n into.new)) }
    ensures whole { IfOk result (λ n. n < length into.old → IsAtEnd (R.remaining from.new)) }
{
    let mut filled = 0;
    while filled < into.len() {
        let more = from.read(&mut into[filled..])?;
        if more == 0 {
            break;
        }
        filled += more;
    }
    Ok(filled)
}

fn main(rt: HostRuntime) -> io::Result<()> {
    let mut input = input_room();
    let mut out = book_room();
    let n = read_full(&mut rt.reader(), &mut input)?;
    let m = journal::book(&input[..n], &mut out);
    if rt.write_all(&out[..m]).is_err() {
        eprintln!(rt; "waterbook: the book could not be written")?;
    }
    Ok(())
}
