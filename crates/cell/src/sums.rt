// Sums that a row keeps until they are collected, a high and a low number for each.
ghost use Rattle.std.specs.Prelude.{◌≡◌, ◌+◌, ◌≤◌, length};
ghost use Rattle.cell.specs.Sums.{sum_limit, sum_of, with_sum, emptied};
ghost use Rattle.cell.specs.Parts.{place_of};

use crate::{Water, ranges};

// The most that a sum holds.
pub const SUM_LIMIT: u64 = 1000000000000000000;

// The two sums of a row.
#[derive(Clone, Copy)]
pub enum Sum {
    Runoff,
    Drain,
}

impl Sum {
    // Where the high number of a sum stands in a row; the low one stands next to it.
    fn place(self) -> usize
        ensures { result ≡ place_of self }
    {
        match self {
            Sum::Runoff => 32,
            Sum::Drain => 34,
        }
    }

    // What a row holds of it.
    #[tactic(auto, unfolding(crate::specs::Sums::sum_of))]
    pub fn of(self, row: &[u32]) -> Water
        ensures { result.0 ≡ sum_of (place_of self) row.now }
    {
        let at = self.place();
        let high = u64::from(ranges::number_at(row, at));
        let low = u64::from(ranges::number_at(row, at + 1));
        Water(high * 4294967296 + low)
    }

    // What it comes to with so much more.
    pub fn grown(self, row: &[u32], n: Water) -> Water
        requires { (sum_of (place_of self) row.now ≤ sum_limit) × (n.0 ≤ sum_limit) }
        ensures { result.0 ≡ sum_of (place_of self) row.now + n.0 }
    {
        Water(self.of(row).0 + n.0)
    }

    // Another amount in its place.
    #[tactic(auto, unfolding(crate::specs::Sums::with_sum))]
    pub fn put(self, row: &mut [u32], n: Water)
        requires { (place_of self + 2 ≤ length row.old) × (n.0 ≤ sum_limit) }
        ensures { row.new ≡ with_sum (place_of self) n.0 row.old }
    {
        let at = self.place();
        row[at] = (n.0 / 4294967296) as u32;
        row[at + 1] = (n.0 % 4294967296) as u32;
    }
}

// Both sums at 0.
#[tactic(auto, unfolding(crate::specs::Sums::emptied))]
pub fn empty(row: &mut [u32])
    requires { 36 ≤ length row.old }
    ensures { row.new ≡ emptied row.old }
{
    Sum::Runoff.put(row, Water(0));
    Sum::Drain.put(row, Water(0));
}
