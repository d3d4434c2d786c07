// The register of an hour: what any list of calls answers and leaves, told in specs/ by the calls alone. Here stand its answers,
// its phases, its classes by number, and the totals that an open phase keeps.
#![tactic(auto)]

mod answers;
mod classes;
mod phases;
mod totals;

pub use answers::{Accepted, Answer};
pub use classes::{class_named, class_taken};
pub use phases::{DayAheadPhase, OpenPhase, RealTimePhase};
pub use totals::Totals;
