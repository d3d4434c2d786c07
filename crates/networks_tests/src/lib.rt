// Tests of the networks: what lies just inside the limits is taken, and what lies just outside is refused.
#![tactic(auto)]

#[cfg(test)]
mod radial_tests;
#[cfg(test)]
mod table_tests;

use refusals::Cause;

const TAKEN: Result<(), Cause> = Ok(());

const REFUSED: Result<(), Cause> = Err(Cause::OutsideLimits);
