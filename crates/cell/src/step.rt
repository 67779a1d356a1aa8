// One accepted step of one plot: shift, compute, draw, deposit.
ghost use Rattle.std.specs.Prelude.{◌≡◌, length, true};
ghost use Rattle.cell.specs.Ranges.{queue_of, row_ok};
ghost use Rattle.cell.specs.QueueLaws.{SlotsIn};
ghost use Rattle.cell.specs.Parts.{Checked, wetting_of, Settling, settled_of, gathered_of, AcceptGives};
ghost use Rattle.cell.specs.Step.{queue_after, step_amounts, row_moved};

use crate::queue::Pulled;
use crate::ranges::Soil;
use crate::sums::{SUM_LIMIT, Sum};
use crate::{
    Amounts, Answer, Card, Depth, Entry, Net, Reading, Refusal, Water, queue, rules, sums,
};

// A day of one plot that has passed the checks from 1 to 10: the card, the soil, the reading, and how deep the table stands.
#[derive(Clone, Copy)]
pub struct Day {
    pub card: Card,
    pub soil: Soil,
    pub reading: Reading,
    pub depth: Depth,
    ghost checked: { Checked card soil reading depth },
}

// What becomes of the day's water, whatever waits in the queue.
#[derive(Clone, Copy)]
pub struct Wetting {
    pub delay: usize,
    pub runoff: Water,
    pub etvad: Water,
    pub lack: Water,
    pub drain: Water,
    pub sunk: Water,
}

// What the draw leaves to settle.
#[derive(Clone, Copy)]
pub struct Settled {
    pub etsat: Water,
    pub stored: Water,
    pub recharge: Net,
}

impl Day {
    // 2 to 6, the lack of 7, the drain of 9 and the F of 10.
    #[tactic(auto, unfolding(crate::specs::Parts::wetting_of, crate::specs::Step::given, crate::specs::Step::curve, crate::specs::Step::storm, crate::specs::Step::delay, crate::specs::Step::runoff, crate::specs::Step::etvad, crate::specs::Step::lack, crate::specs::Step::drain, crate::specs::Step::sunk))]
    fn wet(&self) -> Wetting
        ensures { result ≡ wetting_of self.now.card self.now.soil self.now.reading self.now.depth }
    {
        let r = self.reading;
        let d = self.depth;
        let rain = Water(u64::from(r.rain));
        let irrig = Water(u64::from(r.irrig));
        let etmin = Water(u64::from(r.etmin));
        let g = Water(rain.0 + irrig.0);
        let q = rules::storm_on(u64::from(self.card.share), self.soil.cn, r.amc, rain);
        let delay = rules::delay(self.card, d);
        let runoff = rules::runoff(g, q, delay, self.soil.vadpor, d);
        let etvad = rules::etvad(g, runoff, Water(u64::from(r.pet)), etmin, irrig);
        Wetting {
            delay,
            runoff,
            etvad,
            lack: rules::lack(etvad, etmin, d),
            drain: rules::drain(self.soil.leak, d),
            sunk: Water(g.0 - runoff.0 - etvad.0),
        }
    }

    // 8, the stored of 10, and 11.
    #[tactic(auto, unfolding(crate::specs::Parts::settled_of))]
    fn settle(&self, w: Wetting, p: Pulled) -> Settled
        requires { Settling self.now.reading w p.release.0 p.drawn.0 }
        ensures { result ≡ settled_of self.now.soil self.now.reading self.now.depth w p.release.0 p.drawn.0 }
    {
        let rest = Water(u64::from(self.reading.pet) - w.etvad.0 - p.drawn.0);
        let etsat = rules::etsat(rest, self.soil.etdepth, self.depth);
        let direct = rules::direct(w.delay, w.sunk);
        let septic = Water(u64::from(self.reading.septic));
        Settled {
            etsat,
            stored: rules::stored(w.delay, w.sunk),
            recharge: rules::recharge(p.release, direct, septic, etsat, w.drain),
        }
    }

    // Shift, compute, draw, deposit, on the waiting queue.
    fn turn(&self, w: Wetting, slots: &mut [u32]) -> Amounts
        requires slots_used { length slots.old ≡ self.now.card.delays }
        requires slots_in { SlotsIn self.now.card.delays slots.old }
        requires wetting { w ≡ wetting_of self.now.card self.now.soil self.now.reading self.now.depth }
        ensures amounts { result ≡ step_amounts self.now.card self.now.soil self.now.reading self.now.depth slots.old }
        ensures queue { slots.new ≡ queue_after self.now.card self.now.soil self.now.reading self.now.depth slots.old }
    {
        let p = queue::pull(slots, w.lack);
        let s = self.settle(w, p);
        let left = queue::put(slots, w.delay, s.stored);
        self.gathered(w, s, p, left)
    }

    // The ten amounts, from the parts of the step.
    #[tactic(auto, unfolding(crate::specs::Parts::gathered_of))]
    fn gathered(&self, w: Wetting, s: Settled, p: Pulled, left: Water) -> Amounts
        ensures { result ≡ gathered_of self.now.reading w s p left }
    {
        let r = self.reading;
        let inflow = Water(u64::from(r.rain) + u64::from(r.irrig) + u64::from(r.septic));
        Amounts {
            inflow,
            runoff: w.runoff,
            etvad: w.etvad,
            etstor: p.drawn,
            etsat: s.etsat,
            drain: w.drain,
            release: p.release,
            stored: s.stored,
            recharge: s.recharge,
            left,
        }
    }

    // A row moved on by an accepted step, but for its sums: the queue is the part of it after life and next count.
    fn advance(&self, w: Wetting, row: &mut [u32]) -> Amounts
        requires row_fits { row_ok self.now.card row.old ≡ true }
        requires wetting { w ≡ wetting_of self.now.card self.now.soil self.now.reading self.now.depth }
        ensures amounts { result ≡ step_amounts self.now.card self.now.soil self.now.reading self.now.depth (queue_of self.now.card.delays row.old) }
        ensures row { row.new ≡ row_moved self.now.card self.now.soil (Entry.Reading self.now.reading) self.now.depth row.old }
    {
        let end = 2 + (self.card.delays as usize);
        let amounts = self.turn(w, &mut row[2..end]);
        row[0] = self.reading.life;
        row[1] = self.reading.count + 1;
        amounts
    }

    // 15, then one accepted step of a row. Nothing is written before 15 is passed.
    pub fn accept(&self, row: &mut [u32]) -> Answer
        requires { row_ok self.now.card row.old ≡ true }
        ensures { AcceptGives self.now.card self.now.soil self.now.reading self.now.depth row.old result row.new }
    {
        let w = self.wet();
        let ran = Sum::Runoff.grown(row, w.runoff);
        let drained = Sum::Drain.grown(row, w.drain);
        let room = (ran.0 <= SUM_LIMIT) & (drained.0 <= SUM_LIMIT);
        if !room {
            return Err(Refusal::FullSums);
        }
        let amounts = self.advance(w, row);
        Sum::Runoff.put(row, ran);
        Sum::Drain.put(row, drained);
        Ok(amounts)
    }
}
