// The split: each item gets the amount times the weights up to and with it, over the sum of the weights, less the same for the
// weights before it, each quotient rounded down. So the shares add up to the amount.
ghost use Rattle.std.specs.Prelude.{◌≡◌, ℕ, ◌+◌, ◌<◌, ◌≤◌, map, length, ℤ, pos, ◌-ℤ◌, ◌*ℤ◌, IfOk, MatchResult, FitsSigned, OnOk};
ghost use Rattle.std.specs.Int.{w64};
ghost use Rattle.refusals.specs.Answers.{Answered};
ghost use Rattle.quantities.specs.Rounding.{floor};
ghost use Rattle.quantities.specs.Sums.{at, atℕ};
ghost use Rattle.apportion.specs.Split.{Fair, SumRefused, SplitRefused, Toward, shares, whole};

use crate::items::WeightedItem;
use crate::running::Running;
use quantities::Quantity;
use refusals::Cause;

// The largest sum of weights that an amount is split over.
const MAX_WEIGHT_SUM: u64 = 2_000_000_000;

// Splits the amount over the items by their weights, one place of the row for each item. A refusal leaves the row as it was. The
// items are read and the row is written, so no value holds both.
pub fn split<Q: Quantity, I: WeightedItem>(
    amount: Q,
    items: &[I],
    row: &mut [Q],
) -> Result<(), Cause>
    ensures answer { Answered (SplitRefused (length row.old) (map I.WeightedItem.weighs items.now)) result }
    ensures places { MatchResult result (λ _. map Q.Quantity.units row.new ≡ shares (Q.Quantity.units amount) (map I.WeightedItem.weighs items.now)) (λ _. row.new ≡ row.old) }
    ensures fair { OnOk result (Fair (Q.Quantity.units amount) (length items.now) (atℕ (map I.WeightedItem.weighs items.now)) (at (map Q.Quantity.units row.new))) }
    ensures toward { OnOk result (((i : ℕ) → i < length items.now → Toward (Q.Quantity.units amount) (at (map Q.Quantity.units row.new) i))) }
{
    // one test and its cause: no plainer as a function of its own
    if row.len() != items.len() {
        return Err(Cause::RowLength);
    }
    let sum = weight_sum(items)?;
    fill(amount, items, sum, row);
    Ok(())
}

// The sum of the weights, where an amount can be split over it. It stops before it would wrap: a `for` that returns, since with
// `try_fold` it would answer an `Option` that is taken apart again.
pub fn weight_sum<I: WeightedItem>(items: &[I]) -> Result<u64, Cause>
    ensures answer { Answered (SumRefused (map I.WeightedItem.weighs items.now)) result }
    ensures value { IfOk result (λ s. s ≡ whole (map I.WeightedItem.weighs items.now)) }
{
    let mut sum: u64 = 0;
    for item in items {
        let weight = item.weight();
        if weight > MAX_WEIGHT_SUM - sum {
            return Err(Cause::WeightOutOfRange);
        }
        sum += weight;
    }
    if sum == 0 {
        return Err(Cause::WeightOutOfRange);
    }
    Ok(sum)
}

// Each share is written at its place: after `zip(row.iter_mut())` nothing can be proved of what the row holds.
fn fill<Q: Quantity, I: WeightedItem>(amount: Q, items: &[I], sum: u64, row: &mut [Q])
    requires length { length row.old ≡ length items.now }
    requires sum { sum ≡ whole (map I.WeightedItem.weighs items.now) }
    requires some { 0 < sum }
    requires most { sum ≤ 2000000000 }
    ensures { map Q.Quantity.units row.new ≡ shares (Q.Quantity.units amount) (map I.WeightedItem.weighs items.now) }
{
    let mut running = Running::over(sum);
    for (i, item) in items.iter().enumerate() {
        let share = running.give(exact_part(amount.units(), item.weight()));
        row[i] = Q::from_units(share);
    }
}

// An item's part of the amount, times the sum of the weights.
fn exact_part(amount: i64, weight: u64) -> i128
    requires { weight ≤ 2000000000 }
    ensures { result ≡ amount *ℤ pos weight }
{
    i128::from(amount) * i128::from(weight)
}

// Splits at the ends of what the numbers hold, and every refusal.
#[cfg(test)]
mod tests {
    use super::*;
    use crate::items::LoadBus;
    use quantities::Cents;

    #[test]
    fn ends_of_the_amount(rt: HostRuntime) {
        let buses = [
            LoadBus {
                bus: 0,
                weight: 1_999_999_999,
            },
            LoadBus { bus: 1, weight: 0 },
            LoadBus { bus: 2, weight: 1 },
        ];
        let mut row = [Cents(0); 3];
        assert_eq!(rt; split(Cents(i64::MIN), &buses, &mut row), Ok(()));
        assert_eq!(rt;
            row,
            [Cents(-9223372032243089790), Cents(0), Cents(-4611686018)]
        );
        assert_eq!(rt; split(Cents(i64::MAX), &buses, &mut row), Ok(()));
        assert_eq!(rt;
            row,
            [Cents(9223372032243089788), Cents(0), Cents(4611686019)]
        );
    }

    #[test]
    fn refused_rows_stand(rt: HostRuntime) {
        let none = [LoadBus { bus: 0, weight: 0 }, LoadBus { bus: 1, weight: 0 }];
        let over = [
            LoadBus {
                bus: 0,
                weight: 2_000_000_000,
            },
            LoadBus { bus: 1, weight: 1 },
        ];
        let most = [
            LoadBus {
                bus: 0,
                weight: u64::MAX,
            },
            LoadBus {
                bus: 1,
                weight: u64::MAX,
            },
        ];
        let mut row = [Cents(7); 2];
        assert_eq!(rt;
            split(Cents(5), &none[0..1], &mut row),
            Err(Cause::RowLength)
        );
        assert_eq!(rt;
            split(Cents(5), &none, &mut row),
            Err(Cause::WeightOutOfRange)
        );
        assert_eq!(rt;
            split(Cents(5), &over, &mut row),
            Err(Cause::WeightOutOfRange)
        );
        assert_eq!(rt;
            split(Cents(5), &most, &mut row),
            Err(Cause::WeightOutOfRange)
        );
        assert_eq!(rt;
            split(Cents(5), &none[0..0], &mut row[0..0]),
            Err(Cause::WeightOutOfRange)
        );
        assert_eq!(rt; row, [Cents(7), Cents(7)]);
    }
}
