// One cell's outbox, the node's end of the link: the entries that it has not learnt to be heard.
#![tactic(auto)]

ghost use Rattle.std.specs.Prelude.{◌≡◌};
ghost use Rattle.outbox.specs.Outbox.{refusal_number, number_of, given, made, offered, replaced, fresh_of, offer_of, is_next, added_of, replaced_of, acknowledged_of, swapped_of};

use cell::{Entry, Notice};

mod form;
mod places;

// The entries held stand first, the oldest of them first of all, with counts up to `next`; the room behind them is zero.
#[derive(Clone, Copy)]
pub struct Outbox {
    pub cell: u32,
    pub life: u32,
    pub next: u32,
    pub held: u32,
    pub places: [Entry; 30],
}

// Why an outbox turns a call away, in the order of the checks. It then stays as it came.
#[derive(Clone, Copy, PartialEq, Eq, Debug)]
pub enum Refusal {
    BadForm,
    NotNext,
    Full,
}

impl From<Refusal> for u32 {
    ghost from_gives = { λ why number. number ≡ refusal_number why };

    fn from(why: Refusal) -> u32 {
        match why {
            Refusal::BadForm => 23,
            Refusal::NotNext => 14,
            Refusal::Full => 13,
        }
    }
}

// A fresh outbox of a cell above 255, as it was asked for. It is out of its form.
#[derive(Clone, Copy)]
pub struct NoSuchCell(pub Outbox);

impl Outbox {
    // A fresh outbox has life 0 and holds nothing.
    #[tactic(auto, unfolding(crate::specs::Outbox::fresh_of))]
    pub fn fresh(cell: u32) -> Result<Outbox, NoSuchCell>
        ensures { made result ≡ fresh_of cell }
    {
        let outbox = places::empty(cell, 0);
        if cell <= 255 {
            Ok(outbox)
        } else {
            Err(NoSuchCell(outbox))
        }
    }

    // Offers the oldest, where there is one.
    #[tactic(auto, unfolding(crate::specs::Outbox::offer_of))]
    pub fn offer(&self) -> Result<Option<Entry>, Refusal>
        ensures { result ≡ offered (offer_of self.now) }
    {
        if !form::form_ok(self) {
            return Err(Refusal::BadForm);
        }
        if self.held == 0 {
            return Ok(None);
        }
        Ok(Some(self.places[0]))
    }

    // Takes a new entry.
    #[tactic(auto, unfolding(crate::specs::Outbox::added_of, crate::specs::Outbox::unless))]
    pub fn add(&mut self, e: Entry) -> Result<(), Refusal>
        ensures { given self.new (number_of result) ≡ added_of self.old e }
    {
        if !form::form_ok(self) {
            return Err(Refusal::BadForm);
        }
        if !self.is_next(e) {
            return Err(Refusal::NotNext);
        }
        if 30 <= self.held {
            return Err(Refusal::Full);
        }
        let held = self.held as usize;
        places::keep(&mut self.places, 0, held);
        self.places[held] = e;
        self.next += 1;
        self.held += 1;
        Ok(())
    }

    // Puts a void in place of the oldest, and says whether there was one.
    #[tactic(auto, unfolding(crate::specs::Outbox::replaced_of))]
    pub fn replace(&mut self) -> Result<bool, Refusal>
        ensures { replaced self.new result ≡ replaced_of self.old }
    {
        if !form::form_ok(self) {
            return Err(Refusal::BadForm);
        }
        if self.held == 0 {
            return Ok(false);
        }
        places::keep(&mut self.places, 0, self.held as usize);
        self.places[0] = Entry::Void(form::notice_of(self.places[0]));
        Ok(true)
    }

    // Takes an acknowledgement: the gateway's life and next count.
    #[tactic(auto, unfolding(crate::specs::Outbox::acknowledged_of, crate::specs::Outbox::unless, crate::specs::Outbox::is_heard))]
    pub fn acknowledge(&mut self, life: u32, next: u32) -> Result<(), Refusal>
        ensures { given self.new (number_of result) ≡ acknowledged_of self.old life next }
    {
        if !form::form_ok(self) {
            return Err(Refusal::BadForm);
        }
        let oldest = self.next - self.held;
        let heard = (life == self.life) & (oldest < next) & (next <= self.next);
        if heard {
            let removed = next - oldest;
            places::keep(&mut self.places, removed as usize, self.held as usize);
            self.held -= removed;
        }
        Ok(())
    }

    // A battery swap: empties it and starts a higher life at 0.
    #[tactic(auto, unfolding(crate::specs::Outbox::swapped_of, crate::specs::Outbox::unless, crate::specs::Outbox::is_higher))]
    pub fn swap(&mut self, life: u32) -> Result<(), Refusal>
        ensures { given self.new (number_of result) ≡ swapped_of self.old life }
    {
        if !form::form_ok(self) {
            return Err(Refusal::BadForm);
        }
        let higher = (self.life < life) & (life <= 65535);
        if !higher {
            return Err(Refusal::NotNext);
        }
        *self = places::empty(self.cell, life);
        Ok(())
    }

    // An entry is the next one: of the outbox's cell and life, at its next count, which is in range.
    fn is_next(&self, e: Entry) -> bool
        ensures { result ≡ is_next self.now e }
    {
        let due = Notice {
            cell: self.cell,
            life: self.life,
            count: self.next,
        };
        (form::notice_of(e) == due) & (self.next <= 999999)
    }
}
