// The products between quantities. Shadow price × factor × megawatts is in grains:
// cents/1,000 × 1/10 = 1/10,000 of a cent.
ghost use Rattle.std.specs.Prelude.{◌≡◌, ℤ, pos, ◌-ℤ◌, ◌*ℤ◌, neg_ℤ, unsigned_abs};
ghost use Rattle.quantities.specs.Exact.{Exact};

use crate::kinds::{CongestionPrice, Factor, Flow, Grains, Megawatts, ShadowPrice};

impl Megawatts {
    // What a withdrawal of this many tenths counts.
    pub fn withdrawal(tenths: u32) -> Megawatts
        ensures { result.0 ≡ pos tenths }
    {
        Megawatts(i64::from(tenths))
    }

    // What an injection of this many tenths counts.
    pub fn injection(tenths: u32) -> Megawatts
        ensures { result.0 ≡ neg_ℤ (pos tenths) }
    {
        Megawatts(0 - i64::from(tenths))
    }
}

impl ShadowPrice {
    // What a constraint adds to the congestion price of a bus with this factor.
    pub fn times_factor(self, factor: Factor) -> CongestionPrice
        ensures { result.0 ≡ self.0 *ℤ factor.0 }
    {
        CongestionPrice(i64::from(self.0) * i64::from(factor.0))
    }

    // The congestion of a constraint with this flow, or None where it does not fit 64 bits.
    pub fn times_flow(self, flow: Flow) -> Option<Grains>
        ensures { Exact (λ x. x.0) result (self.0 *ℤ flow.0) }
    {
        i64::from(self.0).checked_mul(flow.0).map(Grains)
    }
}

impl CongestionPrice {
    // What these megawatts are charged at this price, or None where it does not fit 64 bits.
    pub fn times_megawatts(self, megawatts: Megawatts) -> Option<Grains>
        ensures { Exact (λ x. x.0) result (self.0 *ℤ megawatts.0) }
    {
        self.0.checked_mul(megawatts.0).map(Grains)
    }
}

impl Factor {
    // The flow that these megawatts put over a constraint, or None where it does not fit 64 bits.
    pub fn times_megawatts(self, megawatts: Megawatts) -> Option<Flow>
        ensures { Exact (λ x. x.0) result (self.0 *ℤ megawatts.0) }
    {
        i64::from(self.0).checked_mul(megawatts.0).map(Flow)
    }

    // How many thousandths two factors lie apart.
    pub fn distance(self, other: Factor) -> u16
        ensures { result ≡ unsigned_abs (self.0 -ℤ other.0) }
    {
        self.0.abs_diff(other.0)
    }
}
