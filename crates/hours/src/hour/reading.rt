// Reading a closed hour.
ghost use Rattle.std.specs.Prelude.{◌≡◌};
ghost use Rattle.hours.specs.Hours.{closed_register};
ghost use Rattle.register.specs.Views.{DayAheadPart, Entries, RealTimePart};

use super::{ClosedHour, Records};

impl<'a> ClosedHour<'a> {
    pub fn buses(&self) -> u16
        ensures { result ≡ (closed_register self.now).buses }
    {
        self.buses
    }

    // The day-ahead records: the front part of each ledger itself.
    pub fn day_ahead(&self) -> Records<'a>
        ensures positions { DayAheadPart (closed_register self.now).positions result.positions.now }
        ensures transactions { DayAheadPart (closed_register self.now).transactions result.transactions.now }
        ensures positions_place { result.positions.ref_ptr ≡ self.now.positions.records.ref_ptr }
        ensures transactions_place { result.transactions.ref_ptr ≡ self.now.transactions.records.ref_ptr }
    {
        Records {
            positions: self.positions.day_ahead(),
            transactions: self.transactions.day_ahead(),
        }
    }

    // The records of real time: what stands behind the day-ahead records.
    pub fn real_time(&self) -> Records<'a>
        ensures positions { RealTimePart (closed_register self.now).positions result.positions.now }
        ensures transactions { RealTimePart (closed_register self.now).transactions result.transactions.now }
    {
        Records {
            positions: self.positions.real_time(),
            transactions: self.transactions.real_time(),
        }
    }

    // The records of both phases, in the order in which they were posted, where they stand in the slices.
    pub fn standing(&self) -> Records<'a>
        ensures positions { Entries (closed_register self.now).positions result.positions.now }
        ensures transactions { Entries (closed_register self.now).transactions result.transactions.now }
        ensures positions_place { result.positions.ref_ptr ≡ self.now.positions.records.ref_ptr }
        ensures transactions_place { result.transactions.ref_ptr ≡ self.now.transactions.records.ref_ptr }
    {
        Records {
            positions: self.positions.standing(),
            transactions: self.transactions.standing(),
        }
    }
}
