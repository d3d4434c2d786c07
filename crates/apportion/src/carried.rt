// Whole cents from exact amounts in grains, with what rounding leaves over carried on to the next amount.
ghost use Rattle.std.specs.Prelude.{◌≡◌, length, MatchResult, OnOk};
ghost use Rattle.refusals.specs.Answers.{Answered, WrongLength};
ghost use Rattle.quantities.specs.Rounding.{carried_row, floor};
ghost use Rattle.quantities.specs.Sums.{sum_of};
ghost use Rattle.quantities.specs.Views.{cents, grains};

use crate::running::Running;
use quantities::{Cents, GRAINS_PER_CENT, Grains};
use refusals::Cause;

// Whole cents for each of the exact amounts: the amounts up to and with it, rounded down, less those before it, rounded down.
// So the cents add up to the sum of the amounts, rounded down. A row of another length is refused, and stands as it was.
pub fn carry(exact: &[Grains], row: &mut [Cents]) -> Result<(), Cause>
    ensures answer { Answered (WrongLength (length row.old) (length exact.now)) result }
    ensures places { MatchResult result (λ _. cents row.new ≡ carried_row 10000 (grains exact.now)) (λ _. row.new ≡ row.old) }
    ensures adds { OnOk result (sum_of (λ z. z) (cents row.new) ≡ floor (sum_of (λ z. z) (grains exact.now)) 10000) }
{
    // one test and its cause: no plainer as a function of its own
    if row.len() != exact.len() {
        return Err(Cause::RowLength);
    }
    fill_carried(exact, row);
    Ok(())
}

// Each amount's cents are written at its place: after `zip(row.iter_mut())` nothing can be proved of what the row holds.
fn fill_carried(exact: &[Grains], row: &mut [Cents])
    requires { length row.old ≡ length exact.now }
    ensures { cents row.new ≡ carried_row 10000 (grains exact.now) }
{
    let mut running = Running::over(GRAINS_PER_CENT as u64);
    for (k, amount) in exact.iter().enumerate() {
        row[k] = Cents(running.give(i128::from(amount.0)));
    }
}
