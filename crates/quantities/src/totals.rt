// What a row of one unit adds to.
ghost use Rattle.quantities.specs.Exact.{Exact};
ghost use Rattle.quantities.specs.Sums.{sum_of};

use crate::quantity::Quantity;

// The sum of a row, or None where it does not fit 64 bits. Not by `map`, for the reason that stands at `checked_add`.
pub fn total<Q: Quantity>(row: &[Q]) -> Option<Q>
    ensures { Exact Q.Quantity.units result (sum_of Q.Quantity.units row.now) }
{
    let mut sum: i128 = 0;
    for quantity in row {
        sum += i128::from(quantity.units());
    }
    let Ok(units) = i64::try_from(sum) else {
        return None;
    };
    Some(Q::from_units(units))
}
