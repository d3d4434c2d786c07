// Networks: what one tells, the makes that there are, and the congestion price at a bus.
#![tactic(auto)]

mod network;
mod prices;
mod radial;
mod table;

pub use network::{MAX_CONSTRAINTS, MAX_FACTOR, MAX_SHADOW_PRICE, MAX_SPREAD, Network};
pub use prices::congestion_price;
pub use quantities::MAX_BUSES;
pub use radial::{Radial, RadialConstraint};
pub use table::Table;
