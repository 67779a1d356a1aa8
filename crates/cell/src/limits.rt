// The amounts of water of a step, held against a limit.
ghost use Rattle.std.specs.Prelude.{◌≡◌};
ghost use Rattle.cell.specs.Limits.{waters_within};

use crate::Amounts;

impl Amounts {
    // No amount of water is above so much; what the water table gains, which has a sign, is not looked at.
    pub fn waters_within(self, most: u64) -> bool
        ensures { result ≡ waters_within most self }
    {
        (self.inflow.0 <= most)
            & (self.runoff.0 <= most)
            & (self.etvad.0 <= most)
            & (self.etstor.0 <= most)
            & (self.etsat.0 <= most)
            & (self.drain.0 <= most)
            & (self.release.0 <= most)
            & (self.stored.0 <= most)
            & (self.left.0 <= most)
    }
}
