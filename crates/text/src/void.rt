// [3] A void as text: one line.
ghost use Rattle.std.specs.Prelude.{◌≡◌};
ghost use Rattle.text.specs.Voids.{void_text, read_void, void_given, notice_at, void_vals, void_checks};
ghost use Rattle.text.specs.Written.{Writes, written_given};

use crate::{Read, Unread, Unwritten, put_line, read_line};
use cell::Notice;
use form::words::word_at;

const VOID: [u8; 27] = *b"void cell=# life=# count=#\n";

// The notice of a line's values.
fn to_notice(v: &[i64; 3]) -> Notice
    ensures { result ≡ notice_at v.now }
{
    Notice {
        cell: word_at(v, 0),
        life: word_at(v, 1),
        count: word_at(v, 2),
    }
}

// Reads a void's line at the start of s.
pub fn read(s: &[u8]) -> Result<Read<Notice>, Unread>
    ensures { void_given result ≡ read_void s.now }
{
    let line = read_line::<3>(s, &VOID)?;
    Ok(Read {
        taken: line.taken,
        value: to_notice(&line.value),
    })
}

// The values of a void's line.
fn void_values(n: Notice) -> [i64; 3]
    ensures { result ≡ void_vals n }
{
    [n.cell, n.life, n.count].map(i64::from)
}

// Writes a void's line at the start of buf.
pub fn write(n: Notice, buf: &mut [u8]) -> Result<usize, Unwritten>
    ensures { Writes (void_checks n buf.old) (void_text n) buf.old (written_given result) buf.new }
{
    put_line(&VOID, &void_values(n), buf)
}
