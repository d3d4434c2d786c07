// Positions: what every record of a ledger means, and the two kinds that there are.
#![tactic(auto)]

mod bus_positions;
mod classes;
mod position;
mod transactions;

pub use bus_positions::BusPosition;
pub use classes::{Class, Side};
pub use position::{Ends, Position};
pub use transactions::Transaction;
