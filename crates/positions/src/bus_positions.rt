// A position at one bus.
ghost use Rattle.std.specs.Prelude.{◌≡◌, ◌==◌};
ghost use Rattle.positions.specs.Kinds.{amended_position, position, position_ends, position_meaning};
ghost use Rattle.positions.specs.Kinds;
ghost use Rattle.positions.specs.Placed.{at_bus, withdrawn_within, injected_within, loaded_within};
ghost use Rattle.std.proofs.Common.{rules};

use crate::classes::{Class, Side};
use crate::position::{Ends, Position};
use quantities::Megawatts;

#[derive(Clone, Copy)]
pub struct BusPosition {
    pub participant: u8,
    pub class: Class,
    pub bus: u16,
    pub megawatts: Megawatts,
}

impl BusPosition {
    pub fn new(participant: u8, class: Class, bus: u16, tenths: u32) -> BusPosition
        ensures { result ≡ position participant class bus tenths }
    {
        BusPosition {
            participant,
            class,
            bus,
            megawatts: Megawatts::withdrawal(tenths),
        }
    }
}

impl Position for BusPosition {
    ghost meaning = { position_meaning };

    ghost ends = { position_ends };

    ghost amended = { amended_position };

    ghost net = { λ x i. at_bus (x.bus == i) x.class (Kinds.tenths x.megawatts) };

    ghost load = { Prim.search rules };

    ghost withdrawn_within = { λ x. withdrawn_within x.class (Kinds.tenths x.megawatts) };

    ghost injected_within = { λ x. injected_within x.class (Kinds.tenths x.megawatts) };

    ghost load_within = { λ x. loaded_within x.class (Kinds.tenths x.megawatts) };

    ghost participant_stays = { Prim.search rules };

    ghost side_stays = { Prim.search rules };

    ghost megawatts_amended = { Prim.search rules };

    fn participant(&self) -> u8 {
        self.participant
    }

    fn tenths(&self) -> u64 {
        self.megawatts.0.unsigned_abs()
    }

    fn side(&self) -> Side {
        self.class.side()
    }

    // All of it is at its one bus.
    fn ends(&self) -> Ends {
        let tenths = self.tenths();
        let (withdrawn, injected, load) = match self.class {
            Class::Load => (tenths, 0, tenths),
            Class::DecrementBid => (tenths, 0, 0),
            Class::Generation | Class::IncrementOffer => (0, tenths, 0),
        };
        Ends {
            sink: self.bus,
            withdrawn,
            source: self.bus,
            injected,
            load,
        }
    }

    fn with_tenths(&self, tenths: u32) -> Self {
        BusPosition::new(self.participant, self.class, self.bus, tenths)
    }
}
