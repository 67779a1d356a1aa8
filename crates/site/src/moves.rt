// Rows in another form: numbers taken out at one place of every row, and zeros put in there.
ghost use Rattle.std.specs.Prelude.{◌≡◌, true, ◌+◌, ◌*◌, ◌≤◌, ◌<◌, length};
ghost use Rattle.cell.specs.declared.Refusal.TheVariants.{BadRow};
ghost use Rattle.cell.specs.Ranges.{card_ok, form_ok};
ghost use Rattle.cell.specs.Sums.{no_sums};
ghost use Rattle.site.specs.declared.moves.Unmoved.TheVariants.{Refused, Uncollected};
ghost use Rattle.site.specs.Moves.{recut, width_after, recut_all, all_rows, unmoved_number};
ghost use Rattle.site.specs.Parts.{passed, fitting};

use cell::{Card, Refusal};

// Why rows are not moved to another form.
#[derive(Clone, Copy, Debug, PartialEq, Eq)]
pub enum Unmoved {
    Refused(Refusal),
    Uncollected,
}

impl From<Refusal> for Unmoved {
    ghost from_gives = { λ why e. e ≡ Refused why };

    fn from(why: Refusal) -> Unmoved {
        Unmoved::Refused(why)
    }
}

impl From<Unmoved> for u32 {
    ghost from_gives = { λ why number. number ≡ unmoved_number why };

    fn from(why: Unmoved) -> u32 {
        match why {
            Unmoved::Refused(why) => u32::from(why),
            Unmoved::Uncollected => 16,
        }
    }
}

// Where a row is cut anew: of its `width` numbers, `out` are taken out at `place`, and `more` zeros are put in there.
#[derive(Clone, Copy)]
pub struct Recut {
    pub width: usize,
    pub place: usize,
    pub out: usize,
    pub more: usize,
    ghost some: { 0 < width },
    ghost inside: { place + out ≤ width },
    ghost small: { width + more ≤ 1000 },
}

// Over to the form with sums, which are put in after the slots.
pub const OVER: Recut = Recut {
    width: 32,
    place: 32,
    out: 0,
    more: 4,
};

// And back.
pub const BACK: Recut = Recut {
    width: 36,
    place: 32,
    out: 4,
    more: 0,
};

impl Recut {
    // How many numbers a row then has.
    fn width_after(self) -> usize
        ensures { result ≡ width_after self.width self.out self.more }
    {
        self.width - self.out + self.more
    }

    // One row, from its old form into its new one.
    fn row(self, from: &[u32], to: &mut [u32])
        requires old { length from.now ≡ self.width }
        requires room { length to.old ≡ width_after self.width self.out self.more }
        ensures { to.new ≡ recut self.place self.out self.more from.now }
    {
        let after = self.place + self.more;
        to[..self.place].copy_from_slice(&from[..self.place]);
        to[self.place..after].fill(0);
        to[after..].copy_from_slice(&from[self.place + self.out..]);
    }

    // Every row of a slice, from its old form into its new one.
    #[inline(always)]
    #[tactic(auto, using(crate::proofs::Turns::room))]
    pub fn rows(self, cells: usize, from: &[u32], to: &mut [u32])
        requires old { length from.now ≡ self.width * cells }
        requires room { length to.old ≡ width_after self.width self.out self.more * cells }
        ensures { to.new ≡ recut_all cells self.width self.place self.out self.more from.now }
    {
        let width = self.width_after();
        for i in 0..cells {
            let a = self.width * i;
            let b = width * i;
            self.row(&from[a..a + self.width], &mut to[b..b + width]);
        }
    }

    // Checks 1 and, for either slice, 2.
    pub fn fits(self, card: &Card, from: &[u32], to: &[u32]) -> Result<(), Refusal>
        ensures { result ≡ fitting card.now (length from.now) (self.width * card.now.cells) (length to.now) (width_after self.width self.out self.more * card.now.cells) }
    {
        if !cell::card_ok(*card) {
            return Err(Refusal::BadCard);
        }
        let cells = card.cells as usize;
        if from.len() != self.width * cells || to.len() != self.width_after() * cells {
            return Err(Refusal::BadLengths);
        }
        Ok(())
    }

    // Check 5 of every row.
    pub fn in_range(self, card: &Card, rows: &[u32]) -> Result<(), Refusal>
        requires card_fits { card_ok card.now ≡ true }
        requires rows_fit { length rows.now ≡ self.width * card.now.cells }
        ensures { result ≡ passed (all_rows (form_ok card.now.delays) card.now.cells self.width rows.now) BadRow }
    {
        if rows
            .chunks_exact(self.width)
            .all(|row| cell::form_ok(*card, row))
        {
            Ok(())
        } else {
            Err(Refusal::BadRow)
        }
    }

    // Every sum of every row is 0.
    pub fn collected(self, card: &Card, rows: &[u32]) -> Result<(), Unmoved>
        requires rows_fit { length rows.now ≡ self.width * card.now.cells }
        ensures { result ≡ passed (all_rows no_sums card.now.cells self.width rows.now) Uncollected }
    {
        if rows.chunks_exact(self.width).all(|row| cell::is_empty(row)) {
            Ok(())
        } else {
            Err(Unmoved::Uncollected)
        }
    }
}
