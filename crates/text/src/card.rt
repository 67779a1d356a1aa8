// A card as text: one line, then a line per cell.
ghost use Rattle.std.specs.Prelude.{◌≡◌, true, [], ◌∷◌, map, pos, ◌+◌, ◌*◌, ◌≤◌, length};
ghost use Rattle.std.proofs.lemmas.List.Edits.{sets};
ghost use Rattle.cell.specs.Ranges.{counts_ok, none_of};
ghost use Rattle.form.specs.Words.{word_of};
ghost use Rattle.text.specs.Cards.{counts_of, counts_found, tail_at, tail_found, depths_at, parse, card_given, card_result, soil_result, tail_text, card_text, has_text, card_checks};
ghost use Rattle.text.specs.Written.{Writes, written_given};

use crate::{Read, Unread, Unwritten};
use cell::Card;
use form::keys::KeyForm;
use form::line::{form_len, put_form, read_form};
use form::lines::{many_fit, many_len, pass_many, put_many, read_many};
use form::words::{word, word_at};

const CARD: [u8; 16] = *b"cells=# delays=#";

const DEPTH: [u8; 8] = *b" depth=#";

const SHARE: KeyForm = KeyForm {
    form: b" share=#",
    unsaid: 20,
};

const SOIL: [u8; 37] = *b"top=$ etdepth=# vadpor=# leak=# cn=#\n";

// The first line's two counts, and the place behind them.
#[derive(Clone, Copy)]
pub struct Counts {
    pub next: usize,
    pub cells: u32,
    pub delays: u32,
}

// Whether a card may have that many cells and delays.
fn counts_ok(cells: u32, delays: u32) -> bool
    ensures { result ≡ counts_ok cells delays }
{
    if cells < 1 {
        return false;
    }
    if 256 < cells {
        return false;
    }
    delays <= 30
}

fn card_counts(s: &[u8]) -> Option<Counts>
    ensures { counts_found result ≡ counts_of s.now }
{
    let mut v = [0i64; 2];
    let next = read_form(s, 0, &CARD, &mut v, 0)?;
    let (cells, delays) = (word_at(&v, 0), word_at(&v, 1));
    if !counts_ok(cells, delays) {
        return None;
    }
    Some(Counts {
        next,
        cells,
        delays,
    })
}

// [5] The rest of the first line: the share, and the place after the line's end.
#[derive(Clone, Copy)]
pub struct Tail {
    pub next: usize,
    pub share: u32,
}

fn card_tail(s: &[u8], at: usize) -> Option<Tail>
    ensures { tail_found result ≡ tail_at s.now at }
{
    let (share, end) = SHARE.read(s, at)?;
    if *s.get(end)? != b'\n' {
        return None;
    }
    Some(Tail {
        next: end + 1,
        share,
    })
}

// The n depths of the first line and its rest, from `from` on.
fn card_depths(s: &[u8], from: usize, n: usize, v: &mut [i64]) -> Option<Tail>
    requires { n ≤ length v.old }
    ensures { (tail_found result ≡ (depths_at n s.now from).tail)
        × (v.new ≡ sets v.old 0 (depths_at n s.now from).vals) }
{
    let next = read_many(s, from, &DEPTH, n, v, 0).ok()?;
    card_tail(s, next)
}

// Reads a card at the start of s, and fills the first 5 x cells numbers of soil where all of it is well formed.
pub fn read(s: &[u8], soil: &mut [i64]) -> Result<Read<Card>, Unread>
    ensures { (card_given result ≡ card_result (parse s.now) (length soil.old))
        × (soil.new ≡ soil_result (parse s.now) soil.old) }
{
    let h = card_counts(s).ok_or(Unread::Malformed(1))?;
    let mut v = [0i64; 30];
    let t = card_depths(s, h.next, h.delays as usize, &mut v).ok_or(Unread::Malformed(1))?;
    let n = h.cells as usize;
    let taken = pass_many(s, t.next, &SOIL, n).map_err(|good| Unread::Malformed(good + 2))?;
    if soil.len() < n * 5 {
        return Err(Unread::ShortSoil);
    }
    // That they all stand was seen above.
    let _ = read_many(s, t.next, &SOIL, n, soil, 0);
    Ok(Read {
        taken,
        value: Card {
            cells: h.cells,
            delays: h.delays,
            depths: to_depths(&v),
            share: t.share,
        },
    })
}

#[tactic(auto, using(crate::proofs::CardLaws::words_turn))]
fn to_depths(v: &[i64; 30]) -> [u32; 30]
    ensures { result ≡ map word_of v.now }
{
    let mut depths = [0; 30];
    for i in 0..30 {
        depths[i] = word(v[i]);
    }
    depths
}

fn count_values(cells: u32, delays: u32) -> [i64; 2]
    ensures { result ≡ pos cells ∷ pos delays ∷ [] }
{
    [cells, delays].map(i64::from)
}

#[tactic(auto, using(crate::proofs::CardTexts::vals_turn))]
fn depth_values(depths: &[u32; 30]) -> [i64; 30]
    ensures { result ≡ map pos depths.now }
{
    let mut values = [0; 30];
    for i in 0..30 {
        values[i] = i64::from(depths[i]);
    }
    values
}

fn all_zero(depths: &[u32]) -> bool
    ensures { result ≡ none_of depths.now }
{
    depths.iter().all(|depth| *depth == 0)
}

// Whether some text gives the card.
fn has_text(card: Card) -> bool
    ensures { result ≡ has_text card }
{
    counts_ok(card.cells, card.delays) && all_zero(&card.depths[card.delays as usize..])
}

// The length of the text of the first line's rest.
#[tactic(auto, using(crate::proofs::CardTexts::writing_tails))]
fn tail_len(share: u32) -> usize
    ensures { (result ≡ length (tail_text share)) × (result ≤ 200) }
{
    SHARE.len(share) + 1
}

// Writes the first line's rest from `at` on, and returns the place after it.
#[tactic(auto, using(crate::proofs::CardTexts::writing_tails))]
fn put_tail(share: u32, buf: &mut [u8], at: usize) -> usize
    requires { at + length (tail_text share) ≤ length buf.old }
    ensures { (result ≡ at + length (tail_text share)) × (buf.new ≡ sets buf.old at (tail_text share)) }
{
    let end = SHARE.put(share, buf, at);
    buf[end] = b'\n';
    end + 1
}

// The length of the text of a card, its depths as values, with its soil numbers.
#[tactic(auto, using(crate::proofs::CardTexts::writing_cards))]
fn card_len(card: &Card, depths: &[i64; 30], soil: &[i64]) -> usize
    requires { (has_text card.now ≡ true) × (depths.now ≡ map pos card.now.depths) × (length soil.now ≡ card.now.cells * 5) }
    ensures { result ≡ length (card_text card.now soil.now) }
{
    let h = count_values(card.cells, card.delays);
    let a = form_len(&CARD, &h, 0);
    let b = many_len(&DEPTH, card.delays as usize, depths, 0);
    let t = tail_len(card.share);
    let c = many_len(&SOIL, card.cells as usize, soil, 0);
    a + b + t + c
}

// Writes the text of a card, its depths as values, with its soil numbers at the start of buf.
#[tactic(auto, using(crate::proofs::CardTexts::writing_cards))]
fn put_card(card: &Card, depths: &[i64; 30], soil: &[i64], buf: &mut [u8])
    requires card_fits { (has_text card.now ≡ true) × (depths.now ≡ map pos card.now.depths) × (length soil.now ≡ card.now.cells * 5) }
    requires room { length (card_text card.now soil.now) ≤ length buf.old }
    ensures { buf.new ≡ sets buf.old 0 (card_text card.now soil.now) }
{
    let h = count_values(card.cells, card.delays);
    let a = put_form(&CARD, &h, 0, buf, 0);
    let b = put_many(&DEPTH, card.delays as usize, depths, 0, buf, a);
    let t = put_tail(card.share, buf, b);
    put_many(&SOIL, card.cells as usize, soil, 0, buf, t);
}

// Writes a card with its soil numbers at the start of buf.
#[tactic(auto, using(crate::proofs::CardTexts::wrote_all))]
pub fn write(card: Card, soil: &[i64], buf: &mut [u8]) -> Result<usize, Unwritten>
    ensures { Writes (card_checks card soil.now buf.old) (card_text card soil.now) buf.old (written_given result) buf.new }
{
    if !has_text(card) {
        return Err(Unwritten::Unfit);
    }
    let n = card.cells as usize;
    if soil.len() != n * 5 {
        return Err(Unwritten::SoilLength);
    }
    if !many_fit(&SOIL, n, soil, 0) {
        return Err(Unwritten::Unfit);
    }
    let depths = depth_values(&card.depths);
    let len = card_len(&card, &depths, soil);
    if buf.len() < len {
        return Err(Unwritten::Unfit);
    }
    put_card(&card, &depths, soil, buf);
    Ok(len)
}
