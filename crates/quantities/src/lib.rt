// The quantities of a settlement, each a type of its own; the products between them; cents from grains; and the
// one kit of sums and floors.
#![tactic(auto)]

pub mod kinds;
mod limits;
mod products;
mod quantity;
mod rounding;
mod totals;

pub use kinds::{Cents, CongestionPrice, Factor, Flow, Grains, Megawatts, ShadowPrice};
pub use limits::MAX_BUSES;
pub use quantity::Quantity;
pub use rounding::GRAINS_PER_CENT;
pub use totals::total;
