// The hour: two ledgers in lent slices, open day-ahead, then in real time, then closed.
#![tactic(auto)]

mod hour;

pub use hour::{ClosedHour, DayAhead, Hour, RealTime, Records, weigh_making};
pub use ledgers::MAX_RECORDS;
