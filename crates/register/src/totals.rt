// The totals of the open phase.
ghost use Rattle.std.specs.Prelude.{◌≡◌};
ghost use Rattle.register.specs.Totals.{Amended, of_side, with_side};

use positions::Side;
use refusals::Cause;

// No total of a phase passes this.
const MOST: u64 = 1_000_000;

// In tenths of a megawatt.
#[derive(Clone, Copy, Default)]
pub struct Totals {
    pub withdrawing: u64,
    pub injecting: u64,
    pub transacting: u64,
}

impl Totals {
    pub fn none() -> Totals
        ensures { result ≡ record { withdrawing = 0; injecting = 0; transacting = 0 } }
    {
        Totals::default()
    }

    fn of(self, side: Side) -> u64
        ensures { result ≡ of_side self side }
    {
        match side {
            Side::Withdrawing => self.withdrawing,
            Side::Injecting => self.injecting,
            Side::Transacting => self.transacting,
        }
    }

    // The totals with `old` tenths of one side replaced by others, where that does not pass the limit.
    pub fn amended(self, side: Side, old: u64, tenths: u32) -> Result<Totals, Cause>
        ensures { Amended self side old tenths result }
    {
        let rest = self.of(side).saturating_sub(old);
        let total = rest.saturating_add(u64::from(tenths));
        if total > MOST {
            return Err(Cause::TotalOverLimit);
        }
        Ok(self.with(side, total))
    }

    fn with(self, side: Side, total: u64) -> Totals
        ensures { result ≡ with_side self side total }
    {
        match side {
            Side::Withdrawing => Totals {
                withdrawing: total,
                ..self
            },
            Side::Injecting => Totals {
                injecting: total,
                ..self
            },
            Side::Transacting => Totals {
                transacting: total,
                ..self
            },
        }
    }
}
