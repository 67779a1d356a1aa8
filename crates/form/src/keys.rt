// A key, which a line may have or not: a form with one value of 32 bits, and the value that it has where it is not said, which is never written out.
ghost use Rattle.std.specs.Prelude.{◌≡◌, ◌+◌, ◌*◌, ◌≤◌, length};
ghost use Rattle.std.proofs.lemmas.List.Edits.{sets};
ghost use Rattle.form.specs.Form.{marks};
ghost use Rattle.form.specs.Keys.{key_at, said_of, key_text};

use crate::line::{form_len, put_form, read_form};
use crate::words::word_at;

// A key's form, and the value that a line has where the key is not said.
#[derive(Clone, Copy)]
pub struct KeyForm<'a> {
    pub form: &'a [u8],
    pub unsaid: u32,
    pub ghost one: { marks form.now ≡ 1 },
}

impl KeyForm<'_> {
    // Reads the key at `at`, where it is well said or not said: its value, and the place after it.
    #[tactic(auto, using(crate::proofs::KeyTurns::reading_keys))]
    pub fn read(&self, s: &[u8], at: usize) -> Option<(u32, usize)>
        ensures { result ≡ said_of (key_at self.now.form.now self.now.unsaid s.now at) }
    {
        let mut v = [0i64; 1];
        let Some(next) = read_form(s, at, self.form, &mut v, 0) else {
            return Some((self.unsaid, at));
        };
        let n = word_at(&v, 0);
        if n == self.unsaid {
            return None;
        }
        Some((n, next))
    }

    // The length of the text of the key with the value n.
    #[tactic(auto, using(crate::proofs::KeyTurns::writing_keys))]
    pub fn len(&self, n: u32) -> usize
        requires { length self.now.form.now ≤ 65536 }
        ensures { (result ≡ length (key_text self.now.form.now self.now.unsaid n)) × (result ≤ 21 * length self.now.form.now) }
    {
        if n == self.unsaid {
            return 0;
        }
        form_len(self.form, &[i64::from(n)], 0)
    }

    // Writes the key with the value n from `at` on, and returns the place after it.
    #[tactic(auto, using(crate::proofs::KeyTurns::writing_keys))]
    pub fn put(&self, n: u32, buf: &mut [u8], at: usize) -> usize
        requires { at + length (key_text self.now.form.now self.now.unsaid n) ≤ length buf.old }
        ensures { (result ≡ at + length (key_text self.now.form.now self.now.unsaid n))
            × (buf.new ≡ sets buf.old at (key_text self.now.form.now self.now.unsaid n)) }
    {
        if n == self.unsaid {
            return at;
        }
        put_form(self.form, &[i64::from(n)], 0, buf, at)
    }
}
