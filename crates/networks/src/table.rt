// A network that is given as a table of shadow prices and factors.
ghost use Rattle.std.specs.Prelude.{◌≡◌, ◌*◌, ◌≤◌, length};
ghost use Rattle.quantities.specs.Limits.{most_buses};
ghost use Rattle.networks.specs.Limits.{most_constraints};
ghost use Rattle.networks.specs.Meaning.{SpreadMost};
ghost use Rattle.networks.specs.Tables.{table_meaning, PricesWithin, FactorsWithin};
ghost use Rattle.networks.specs.TableLimits.{price_most, factor_most, price_past};
ghost use Rattle.std.proofs.Common.{rules};

mod making;

use crate::network::Network;
use quantities::{Factor, ShadowPrice};

#[derive(Drop)]
pub struct Table {
    buses: u16,
    prices: Vec<ShadowPrice>,
    // constraint by constraint: the factor of constraint j at bus i stands at j × buses + i. The list stays flat, as the
    // caller gives it: a list for each constraint would be an allocation and a length to check for each
    factors: Vec<Factor>,
    ghost a_bus: { 1 ≤ buses },
    ghost buses_most: { buses ≤ most_buses },
    ghost constraints_most: { length prices.items ≤ most_constraints },
    ghost prices_within: { PricesWithin prices.items },
    ghost whole: { length factors.items ≡ length prices.items * buses },
    ghost factors_within: { FactorsWithin factors.items },
    ghost spread_most: { SpreadMost (table_meaning buses prices.items factors.items) },
}

impl Network for Table {
    ghost meaning = { λ t. table_meaning t.buses t.prices.items t.factors.items };

    ghost a_bus = { Prim.search rules };

    ghost buses_most = { Prim.search rules };

    ghost constraints_most = { Prim.search rules };

    ghost price_most = { λ t j. price_most t.prices.items t.prices_within j };

    ghost factor_most = { λ t j i. factor_most t.buses t.prices.items t.factors.items t.whole t.factors_within j i };

    ghost spread_most = { Prim.search rules };

    ghost price_beyond = { λ t j h. price_past t.prices.items j h };

    ghost factor_beyond_constraints = { Prim.search rules };

    ghost factor_beyond_buses = { Prim.search rules };

    fn buses(&self) -> u16 {
        self.buses
    }

    fn constraints(&self) -> u8 {
        self.prices.len() as u8
    }

    fn shadow_price(&self, constraint: u8) -> ShadowPrice {
        self.prices
            .get(usize::from(constraint))
            .copied()
            .unwrap_or(ShadowPrice(0))
    }

    fn factor(&self, constraint: u8, bus: u16) -> Factor {
        if bus >= self.buses {
            return Factor(0);
        }
        // past the last constraint the place is past the end of the list, too
        let place = usize::from(constraint) * usize::from(self.buses) + usize::from(bus);
        self.factors.get(place).copied().unwrap_or(Factor(0))
    }
}
