// Making an hour over slices that the caller lends.
ghost use Rattle.std.specs.Prelude.{◌≡◌, length};
ghost use Rattle.refusals.specs.Answers.{Answered, Clear};
ghost use Rattle.hours.specs.Hours.{register_of};
ghost use Rattle.register.specs.Register.{fresh};
ghost use Rattle.register.specs.Weighed.{MakingRefused};

use super::{DayAhead, Hour};
use ledgers::{Ledger, MAX_RECORDS};
use positions::{BusPosition, Transaction};
use quantities::MAX_BUSES;
use refusals::Cause;
use register::{DayAheadPhase, Totals};
use std::marker::PhantomData;

// Whether an hour may be made: the first step of making one. It reads the slices that the second borrows for good, so one struct
// could not hold them for both.
pub fn weigh_making(
    buses: u16,
    positions: &[BusPosition],
    transactions: &[Transaction],
) -> Result<(), Cause>
    ensures { Answered (MakingRefused buses (length positions.now) (length transactions.now)) result }
{
    if buses < 1
        || buses > MAX_BUSES
        || positions.len() > MAX_RECORDS
        || transactions.len() > MAX_RECORDS
    {
        return Err(Cause::OutsideLimits);
    }
    Ok(())
}

impl<'a> Hour<'a, DayAheadPhase> {
    // A new hour, open day-ahead: the second step, where the first found nothing.
    pub fn new(
        buses: u16,
        positions: &'a mut [BusPosition],
        transactions: &'a mut [Transaction],
    ) -> DayAhead<'a>
        requires { Clear (MakingRefused buses (length positions.old) (length transactions.old)) }
        ensures { register_of result ≡ fresh buses (length positions.old) (length transactions.old) }
    {
        let positions = Ledger::new(positions);
        let transactions = Ledger::new(transactions);
        Hour {
            buses,
            positions,
            transactions,
            totals: Totals::none(),
            phase: PhantomData,
        }
    }
}
