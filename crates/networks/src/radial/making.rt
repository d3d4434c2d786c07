// Making a radial network: it is weighed against the limits first, and then made.
ghost use Rattle.std.specs.Prelude.{◌+◌, ◌↔◌, IsTrue};
ghost use Rattle.refusals.specs.Answers.{Answered, Clear};
ghost use Rattle.networks.specs.Descent.{Falling};
ghost use Rattle.networks.specs.Radials.{RadialTells, RadialRefused, RadialWithin, ConstraintsWithin, ConstraintWithin};
ghost use Rattle.networks.specs.contracts.radial.RadialNetwork.TheImpl.{ghosts as as_network};

use crate::network::{MAX_CONSTRAINTS, MAX_SHADOW_PRICE};
use crate::radial::Radial;
use crate::radial::constraint::RadialConstraint;
use quantities::MAX_BUSES;
use refusals::Cause;

impl Radial {
    // Whether a network of these upper buses and constraints can be made. It reads slices of the lists that `new` takes.
    pub fn weigh(uppers: &[u16], constraints: &[RadialConstraint]) -> Result<(), Cause>
        ensures { Answered (RadialRefused uppers.now constraints.now) result }
    {
        // one test and its cause, as in the other make
        if !within_limits(uppers, constraints) {
            return Err(Cause::OutsideLimits);
        }
        Ok(())
    }

    // The network of what was weighed. Entry k of `uppers` is the upper bus of bus k + 1.
    pub fn new(uppers: Vec<u16>, constraints: Vec<RadialConstraint>) -> Radial
        requires { Clear (RadialRefused uppers.items constraints.items) }
        ensures { RadialTells uppers.items constraints.items (as_network.meaning result) }
    {
        Radial {
            uppers,
            constraints,
        }
    }
}

fn within_limits(uppers: &[u16], constraints: &[RadialConstraint]) -> bool
    ensures { IsTrue result ↔ (RadialWithin uppers.now constraints.now) }
{
    uppers.len() < usize::from(MAX_BUSES)
        && uppers_smaller(uppers)
        && constraints.len() <= usize::from(MAX_CONSTRAINTS)
        && constraints_within(uppers.len(), constraints)
}

fn uppers_smaller(uppers: &[u16]) -> bool
    ensures { IsTrue result ↔ (Falling uppers.now) }
{
    uppers
        .iter()
        .enumerate()
        .all(|(k, upper)| usize::from(*upper) <= k)
}

// Whether each constraint is within the limits of a network whose last bus is `last`.
fn constraints_within(last: usize, constraints: &[RadialConstraint]) -> bool
    ensures { IsTrue result ↔ (ConstraintsWithin (last + 1) constraints.now) }
{
    constraints
        .iter()
        .all(|constraint| constraint_within(last, *constraint))
}

fn constraint_within(last: usize, constraint: RadialConstraint) -> bool
    ensures { IsTrue result ↔ (ConstraintWithin (last + 1) constraint) }
{
    (1..=last).contains(&usize::from(constraint.bus))
        && constraint.price.0.unsigned_abs() <= MAX_SHADOW_PRICE
}
