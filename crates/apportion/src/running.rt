// Exact parts, given out in whole units.
ghost use Rattle.std.specs.Prelude.{◌≡◌, ◌<◌, pos, ◌+ℤ◌, ◌-ℤ◌, FitsSigned};
ghost use Rattle.std.specs.Int.{w64, w128};
ghost use Rattle.quantities.specs.Rounding.{floor};

// The exact parts so far, over a divisor, and what was given for them: their sum over the divisor, rounded down. So what rounding
// leaves over is carried on to the next part.
#[derive(Clone, Copy)]
pub(crate) struct Running {
    divisor: u64,
    exact: i128,
    given: i128,
    ghost positive: { 0 < divisor },
    ghost rounded: { given ≡ floor exact divisor },
}

impl Running {
    // Before the first part.
    pub(crate) fn over(divisor: u64) -> Running
        requires { 0 < divisor }
        ensures divisor { result.divisor ≡ divisor }
        ensures exact { result.exact ≡ pos 0 }
    {
        Running {
            divisor,
            exact: 0,
            given: 0,
        }
    }

    // Gives for one part more: the parts with it, rounded down, less those before it, rounded down.
    pub(crate) fn give(&mut self, part: i128) -> i64
        requires sum { FitsSigned w128 (self.old.exact +ℤ part) }
        requires share { FitsSigned w64 (floor (self.old.exact +ℤ part) self.old.divisor
            -ℤ floor self.old.exact self.old.divisor) }
        ensures share { result ≡ floor (self.old.exact +ℤ part) self.old.divisor
            -ℤ floor self.old.exact self.old.divisor }
        ensures divisor { self.new.divisor ≡ self.old.divisor }
        ensures exact { self.new.exact ≡ self.old.exact +ℤ part }
    {
        let exact = self.exact + part;
        let given = exact.div_euclid(i128::from(self.divisor));
        let share = given - self.given;
        *self = Running {
            divisor: self.divisor,
            exact,
            given,
        };
        share as i64
    }
}
