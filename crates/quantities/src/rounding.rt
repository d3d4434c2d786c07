// Whole cents from grains, rounded down.
ghost use Rattle.std.specs.Prelude.{◌≡◌};
ghost use Rattle.quantities.specs.Rounding.{floor, RoundedDown};

use crate::kinds::{Cents, Grains};

// How many grains make a cent.
pub const GRAINS_PER_CENT: i64 = 10_000;

impl Grains {
    // Whole cents, rounded down, below nought too.
    pub fn floor_to_cents(self) -> Cents
        ensures value { result.0 ≡ floor self.0 10000 }
        ensures rounded { RoundedDown self.0 10000 result.0 }
    {
        Cents(self.0.div_euclid(GRAINS_PER_CENT))
    }
}
