// A network that is a tree: each bus but the root hangs from an upper bus of smaller number.
ghost use Rattle.std.specs.Prelude.{◌+◌, ◌<◌, ◌≤◌, length};
ghost use Rattle.networks.specs.Descent.{Falling};
ghost use Rattle.quantities.specs.Limits.{most_buses};
ghost use Rattle.networks.specs.Limits.{most_constraints};
ghost use Rattle.networks.specs.Radials.{radial_meaning, ConstraintsWithin};
ghost use Rattle.networks.specs.RadialLimits.{price_most, price_past};
ghost use Rattle.std.proofs.Common.{rules};

mod constraint;
mod descent;
mod making;

use crate::network::Network;
pub use constraint::RadialConstraint;
use descent::is_under;
use quantities::{Factor, ShadowPrice};

#[derive(Drop)]
pub struct Radial {
    // entry k is the upper bus of bus k + 1. Paths are followed upward alone; in lists of lower buses they would be searched
    uppers: Vec<u16>,
    constraints: Vec<RadialConstraint>,
    ghost buses_most: { length uppers.items + 1 ≤ most_buses },
    ghost falling: { Falling uppers.items },
    ghost constraints_most: { length constraints.items ≤ most_constraints },
    ghost constraints_within: { ConstraintsWithin (length uppers.items + 1) constraints.items },
}

// The factor of a constraint at its bus and at each descendant: all that is withdrawn there comes over the line.
const FACTOR_UNDER: Factor = Factor(-1_000);

impl Network for Radial {
    ghost meaning = { λ n. radial_meaning n.uppers.items n.constraints.items };

    ghost a_bus = { Prim.search rules };

    ghost buses_most = { Prim.search rules };

    ghost constraints_most = { Prim.search rules };

    ghost price_most = { λ n j. price_most (length n.uppers.items + 1) n.constraints.items n.constraints_within j };

    ghost factor_most = { Prim.search rules };

    ghost spread_most = { Prim.search rules };

    ghost price_beyond = { λ n j h. price_past n.constraints.items j h };

    ghost factor_beyond_constraints = { Prim.search rules };

    ghost factor_beyond_buses = { Prim.search rules };

    fn buses(&self) -> u16 {
        self.uppers.len() as u16 + 1
    }

    fn constraints(&self) -> u8 {
        self.constraints.len() as u8
    }

    fn shadow_price(&self, constraint: u8) -> ShadowPrice {
        self.constraints
            .get(usize::from(constraint))
            .map_or(ShadowPrice(0), |line| line.price)
    }

    fn factor(&self, constraint: u8, bus: u16) -> Factor {
        match self.constraints.get(usize::from(constraint)) {
            Some(line) if bus < self.buses() && is_under(&self.uppers, line.bus, bus) => {
                FACTOR_UNDER
            }
            _ => Factor(0),
        }
    }
}
