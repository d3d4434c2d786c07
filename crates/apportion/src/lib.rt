// Splitting an amount over weighted items, and whole cents from exact amounts: both give out exact parts in whole units.
#![tactic(auto)]

mod carried;
mod items;
mod running;
mod shares;
mod worked;

pub use carried::carry;
pub use items::{AreaMember, LoadBus, WeightedItem};
pub use shares::{split, weight_sum};
pub use worked::{WorkedCents, WorkedSplits, worked_cents, worked_splits};
