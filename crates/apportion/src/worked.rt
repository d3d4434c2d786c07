// Splits and carried cents worked out by hand.
ghost use Rattle.std.specs.Prelude.{◌≡◌, [], ◌∷◌, map, pos, negsuc, MatchResult, ◌<◌, ◌≤◌, replicate};
ghost use Rattle.quantities.specs.Views.{cents, megawatts};
ghost use Rattle.apportion.specs.Split.{shares};
ghost use Rattle.apportion.specs.Worked.{WorkedRows, WorkedSplitsDefined};
ghost use Rattle.apportion.specs.WorkedCents.{WorkedCentsDefined, WorkedCentsRows};

use crate::carried::carry;
use crate::items::{AreaMember, LoadBus};
use crate::shares::split;
use quantities::{Cents, Grains, Megawatts};
use refusals::Cause;

#[derive(Clone, Copy)]
pub struct WorkedSplits {
    // 100 and -100 over three equal weights
    pub hundred: [Cents; 3],
    pub hundred_below_nought: [Cents; 3],
    // 6 over four equal weights
    pub six: [Cents; 4],
    // 10 over shares of 33.33, 33.33 and 33.34 percent
    pub area: [Megawatts; 3],
}

pub fn worked_splits() -> Result<WorkedSplits, Cause>
    ensures figures { MatchResult result WorkedRows (λ _. ⊥) }
    ensures defined { WorkedSplitsDefined }
{
    Ok(WorkedSplits {
        hundred: over_equal(Cents(100))?,
        hundred_below_nought: over_equal(Cents(-100))?,
        six: over_equal(Cents(6))?,
        area: over_members(Megawatts(10))?,
    })
}

// An amount over N equal weights.
fn over_equal<const N: usize>(amount: Cents) -> Result<[Cents; N], Cause>
    requires some { 0 < N }
    requires most { N ≤ 2000000000 }
    ensures { MatchResult result (λ row. cents row ≡ shares amount.0 (replicate N 1)) (λ _. ⊥) }
{
    let mut row = [Cents(0); N];
    split(amount, &[LoadBus { bus: 0, weight: 1 }; N], &mut row)?;
    Ok(row)
}

// An M over shares of 33.33, 33.33 and 33.34 percent.
fn over_members(amount: Megawatts) -> Result<[Megawatts; 3], Cause>
    ensures { MatchResult result
        (λ row. megawatts row ≡ shares amount.0 (3333 ∷ 3333 ∷ 3334 ∷ [])) (λ _. ⊥) }
{
    let members = [
        AreaMember {
            bus: 0,
            share: 3_333,
        },
        AreaMember {
            bus: 1,
            share: 3_333,
        },
        AreaMember {
            bus: 2,
            share: 3_334,
        },
    ];
    let mut row = [Megawatts(0); 3];
    split(amount, &members, &mut row)?;
    Ok(row)
}

// Exact amounts, and the cents that they are carried to.
#[derive(Clone, Copy)]
pub struct WorkedCents {
    // one and a half cents twice
    pub twice: [Grains; 2],
    pub twice_in_cents: [Cents; 2],
    // half a cent below nought
    pub below_nought: [Grains; 1],
    pub below_nought_in_cents: [Cents; 1],
}

pub fn worked_cents() -> Result<WorkedCents, Cause>
    ensures figures { MatchResult result WorkedCentsRows (λ _. ⊥) }
    ensures defined { WorkedCentsDefined }
{
    let twice = [Grains(15_000), Grains(15_000)];
    let mut twice_in_cents = [Cents(0); 2];
    carry(&twice, &mut twice_in_cents)?;
    let below_nought = [Grains(-5_000)];
    let mut below_nought_in_cents = [Cents(0); 1];
    carry(&below_nought, &mut below_nought_in_cents)?;
    Ok(WorkedCents {
        twice,
        twice_in_cents,
        below_nought,
        below_nought_in_cents,
    })
}
