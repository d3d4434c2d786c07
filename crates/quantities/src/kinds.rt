// The five quantities, and the two that come between them.
ghost use Rattle.std.proofs.Common.{rules};

use crate::quantity::Quantity;

// Whole tenths of a megawatt. Withdrawals are above nought, injections below.
#[derive(Clone, Copy, PartialEq, Eq, Debug)]
pub struct Megawatts(pub i64);

// A distribution factor: whole thousandths.
#[derive(Clone, Copy, PartialEq, Eq, Debug)]
pub struct Factor(pub i16);

// A shadow price: whole cents for a megawatt-hour.
#[derive(Clone, Copy, PartialEq, Eq, Debug)]
pub struct ShadowPrice(pub i32);

// Ten-thousandths of a cent.
#[derive(Clone, Copy, PartialEq, Eq, Debug)]
pub struct Grains(pub i64);

#[derive(Clone, Copy, PartialEq, Eq, Debug)]
pub struct Cents(pub i64);

// Shadow price times factor: grains for a tenth of a megawatt in one hour.
#[derive(Clone, Copy, PartialEq, Eq, Debug)]
pub struct CongestionPrice(pub i64);

// Factor times megawatts: thousandths of a tenth of a megawatt over a constraint.
#[derive(Clone, Copy, PartialEq, Eq, Debug)]
pub struct Flow(pub i64);

// An impl for each unit, since a rule of the project asks for a struct around each: with one `Amount<Unit>`, `Cents(5)` would be
// `Amount::<Cent>::new(5)`, and the gate refuses impls that a macro of the repository writes.
impl Quantity for Megawatts {
    ghost units = { λ x. x.0 };

    ghost alone = { Prim.search rules };

    fn units(self) -> i64 {
        self.0
    }

    fn from_units(count: i64) -> Megawatts {
        Megawatts(count)
    }
}

impl Quantity for Grains {
    ghost units = { λ x. x.0 };

    ghost alone = { Prim.search rules };

    fn units(self) -> i64 {
        self.0
    }

    fn from_units(count: i64) -> Grains {
        Grains(count)
    }
}

impl Quantity for Cents {
    ghost units = { λ x. x.0 };

    ghost alone = { Prim.search rules };

    fn units(self) -> i64 {
        self.0
    }

    fn from_units(count: i64) -> Cents {
        Cents(count)
    }
}
