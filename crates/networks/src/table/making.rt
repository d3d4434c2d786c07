// Making a table: it is weighed against the limits first, and then made.
ghost use Rattle.std.specs.Prelude.{◌≡◌, ◌/◌, ◌≤◌, ◌↔◌, length, IsTrue};
ghost use Rattle.refusals.specs.Answers.{Answered, Clear};
ghost use Rattle.networks.specs.Tables.{table_meaning, TableRefused, TableWithin, PricesWithin, FactorsWithin, RowsClose, Close, CloseTo};
ghost use Rattle.networks.specs.contracts.table.TableNetwork.TheImpl.{ghosts as as_network};

use crate::network::{MAX_CONSTRAINTS, MAX_FACTOR, MAX_SHADOW_PRICE, MAX_SPREAD};
use crate::table::Table;
use quantities::{Factor, MAX_BUSES, ShadowPrice};
use refusals::Cause;

impl Table {
    // Whether a table of these buses, prices and factors can be made. It reads slices of the lists that `new` takes, so no one type
    // holds them for both.
    pub fn weigh(buses: u16, prices: &[ShadowPrice], factors: &[Factor]) -> Result<(), Cause>
        ensures { Answered (TableRefused buses prices.now factors.now) result }
    {
        // one test and its cause, as in the other make
        if !within_limits(buses, prices, factors) {
            return Err(Cause::OutsideLimits);
        }
        Ok(())
    }

    // The table of what was weighed. The factors stand constraint by constraint, with one for each bus.
    pub fn new(buses: u16, prices: Vec<ShadowPrice>, factors: Vec<Factor>) -> Table
        requires { Clear (TableRefused buses prices.items factors.items) }
        ensures { as_network.meaning result ≡ table_meaning buses prices.items factors.items }
    {
        Table {
            buses,
            prices,
            factors,
        }
    }
}

fn within_limits(buses: u16, prices: &[ShadowPrice], factors: &[Factor]) -> bool
    ensures { IsTrue result ↔ (TableWithin buses prices.now factors.now) }
{
    (1..=MAX_BUSES).contains(&buses)
        && prices.len() <= usize::from(MAX_CONSTRAINTS)
        && prices_within(prices)
        && factors.len() == prices.len() * usize::from(buses)
        && factors_within(factors)
        && rows_close(usize::from(buses), factors)
}

fn prices_within(prices: &[ShadowPrice]) -> bool
    ensures { IsTrue result ↔ (PricesWithin prices.now) }
{
    prices
        .iter()
        .all(|price| price.0.unsigned_abs() <= MAX_SHADOW_PRICE)
}

// Beside `prices_within`, since one function for both would take the size as a closure and be longer than the two.
fn factors_within(factors: &[Factor]) -> bool
    ensures { IsTrue result ↔ (FactorsWithin factors.now) }
{
    factors
        .iter()
        .all(|factor| factor.0.unsigned_abs() <= MAX_FACTOR)
}

// Whether the factors of each constraint lie close together. A row has a factor for each bus.
fn rows_close(buses: usize, factors: &[Factor]) -> bool
    requires a_bus { 1 ≤ buses }
    ensures { IsTrue result ↔ (RowsClose buses (length factors.now / buses) factors.now) }
{
    factors.chunks_exact(buses).all(close)
}

// Whether every two factors of a row lie close together.
#[tactic(auto, unfolding(crate::specs::Tables::Close))]
fn close(row: &[Factor]) -> bool
    ensures { IsTrue result ↔ (Close row.now) }
{
    row.iter().all(|factor| close_to(*factor, row))
}

#[tactic(auto, unfolding(crate::specs::Tables::CloseTo))]
fn close_to(factor: Factor, row: &[Factor]) -> bool
    ensures { IsTrue result ↔ (CloseTo factor.0 row.now) }
{
    row.iter()
        .all(|other| factor.distance(*other) <= MAX_SPREAD)
}
