// The ledger of positions of one kind, in a slice that the caller lends.
#![tactic(auto)]

mod limits;
mod records;

pub use limits::MAX_RECORDS;
pub use records::{ClosedLedger, Ledger};
