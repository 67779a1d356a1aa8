// [3] An entry as text: a void's line, or a reading's.
ghost use Rattle.std.specs.Prelude.{◌≡◌};
ghost use Rattle.text.specs.Voids.{read_entry, entry_given};

use crate::{Read, Unread, reading, void};
use cell::Entry;

// Reads an entry's line at the start of s. Most lines are readings, so that one is looked for first.
pub fn read(s: &[u8]) -> Result<Read<Entry>, Unread>
    ensures { entry_given result ≡ read_entry s.now }
{
    if let Ok(Read { taken, value }) = reading::read(s) {
        return Ok(Read {
            taken,
            value: Entry::Reading(value),
        });
    }
    let Read { taken, value } = void::read(s)?;
    Ok(Read {
        taken,
        value: Entry::Void(value),
    })
}
