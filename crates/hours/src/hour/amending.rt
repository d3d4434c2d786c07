// Amending a record of the open phase.
ghost use Rattle.std.specs.Prelude.{◌≡◌};
ghost use Rattle.register.specs.Amending.{RecordAmended};
ghost use Rattle.hours.specs.Hours.{register_of};
ghost use Rattle.ledgers.specs.Book.{OpenAt, SameSlice, book};
ghost use Rattle.register.specs.Register.{Step, amend_position as amending_position, amend_transaction as amending_transaction};
ghost use Rattle.register.specs.Views.{done};

use super::Hour;
use ledgers::Ledger;
use positions::Position;
use refusals::Cause;
use register::{OpenPhase, Totals};

impl<'a, P: OpenPhase> Hour<'a, P> {
    // Replaces the M of a bus position.
    pub fn amend_position(&mut self, record: usize, tenths: u32) -> Result<(), Cause>
        ensures { Step (register_of self.old) (amending_position «record» tenths)
            (done result) (register_of self.new) }
    {
        let old = self.positions.open_at(record);
        amend(&mut self.positions, &mut self.totals, old, record, tenths)
    }

    // Replaces the M of a transaction.
    pub fn amend_transaction(&mut self, record: usize, tenths: u32) -> Result<(), Cause>
        ensures { Step (register_of self.old) (amending_transaction «record» tenths)
            (done result) (register_of self.new) }
    {
        let old = self.transactions.open_at(record);
        amend(
            &mut self.transactions,
            &mut self.totals,
            old,
            record,
            tenths,
        )
    }
}

// Replaces the M of one record, in its ledger and in the total that it counts in. `old` is the record as it stands, if it is open.
fn amend<P: Position>(
    ledger: &mut Ledger<P>,
    totals: &mut Totals,
    old: Option<P>,
    record: usize,
    tenths: u32,
) -> Result<(), Cause>
    requires { OpenAt (book ledger.old) «record» old }
    ensures amended { RecordAmended P.meaning P.Position.amended (book ledger.old) totals.old
        «record» tenths result (book ledger.new) totals.new }
    ensures slice { SameSlice ledger.old ledger.new }
{
    let old = old.ok_or(Cause::RecordNotOpen)?;
    let amended = totals.amended(old.side(), old.tenths(), tenths)?;
    ledger.amend(record, tenths)?;
    *totals = amended;
    Ok(())
}
