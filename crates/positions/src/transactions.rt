// A position that withdraws at its sink what it injects at its source.
ghost use Rattle.std.specs.Prelude.{◌≡◌, ◌==◌};
ghost use Rattle.positions.specs.Kinds.{amended_transaction, transaction, transaction_ends, transaction_meaning};
ghost use Rattle.positions.specs.Kinds;
ghost use Rattle.positions.specs.Placed.{at_ends};
ghost use Rattle.std.proofs.Common.{rules};

use crate::classes::Side;
use crate::position::{Ends, Position};
use quantities::Megawatts;

#[derive(Clone, Copy)]
pub struct Transaction {
    pub participant: u8,
    pub source: u16,
    pub sink: u16,
    pub megawatts: Megawatts,
}

impl Transaction {
    pub fn new(participant: u8, source: u16, sink: u16, tenths: u32) -> Transaction
        ensures { result ≡ transaction participant source sink tenths }
    {
        Transaction {
            participant,
            source,
            sink,
            megawatts: Megawatts::withdrawal(tenths),
        }
    }
}

impl Position for Transaction {
    ghost meaning = { transaction_meaning };

    ghost ends = { transaction_ends };

    ghost amended = { amended_transaction };

    ghost net = { λ x i. at_ends (x.sink == i) (x.source == i) (Kinds.tenths x.megawatts) };

    ghost load = { Prim.search rules };

    ghost withdrawn_within = { Prim.search rules };

    ghost injected_within = { Prim.search rules };

    ghost load_within = { Prim.search rules };

    ghost participant_stays = { Prim.search rules };

    ghost side_stays = { Prim.search rules };

    ghost megawatts_amended = { Prim.search rules };

    fn participant(&self) -> u8 {
        self.participant
    }

    fn tenths(&self) -> u64 {
        self.megawatts.0.unsigned_abs()
    }

    fn side(&self) -> Side {
        Side::Transacting
    }

    fn ends(&self) -> Ends {
        let tenths = self.tenths();
        Ends {
            sink: self.sink,
            withdrawn: tenths,
            source: self.source,
            injected: tenths,
            load: 0,
        }
    }

    fn with_tenths(&self, tenths: u32) -> Self {
        Transaction::new(self.participant, self.source, self.sink, tenths)
    }
}
