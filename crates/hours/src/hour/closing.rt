// Closing the open phase.
ghost use Rattle.refusals.specs.Answers.{Clear};
ghost use Rattle.hours.specs.Hours.{closed_register, register_of};
ghost use Rattle.register.specs.Register.{Holds, Step, close as closing};
ghost use Rattle.register.specs.Views.{phase_of};
ghost use Rattle.register.specs.Weighed.{ClosingWeighed};
ghost use Rattle.std.specs.Prelude.{Ok};
ghost use Rattle.register.specs.declared.answers.Accepted.TheVariants.{Taken};

use super::{ClosedHour, Hour, RealTime};
use refusals::Cause;
use register::{DayAheadPhase, OpenPhase, RealTimePhase, Totals};
use std::marker::PhantomData;

impl<'a, P: OpenPhase> Hour<'a, P> {
    // Whether the open phase may close: the first step of closing it.
    pub fn weigh_closing(&self) -> Result<(), Cause>
        ensures { ClosingWeighed (register_of self.now) (phase_of P.closings) result }
    {
        if self.totals.withdrawing == self.totals.injecting {
            Ok(())
        } else {
            Err(Cause::Unbalanced)
        }
    }
}

impl<'a> Hour<'a, DayAheadPhase> {
    // Goes over to real time: the second step, where the first found nothing.
    pub fn close(self) -> RealTime<'a>
        requires { Clear (Holds (register_of self) (phase_of 0) closing) }
        ensures { Step (register_of self.entry) closing (Ok Taken) (register_of result) }
    {
        let Hour {
            buses,
            positions,
            transactions,
            totals: _,
            phase: _,
        } = self;
        let positions = positions.close_phase();
        let transactions = transactions.close_phase();
        Hour {
            buses,
            positions,
            transactions,
            totals: Totals::none(),
            phase: PhantomData,
        }
    }
}

impl<'a> Hour<'a, RealTimePhase> {
    // Ends the hour: the second step, where the first found nothing.
    pub fn close(self) -> ClosedHour<'a>
        requires { Clear (Holds (register_of self) (phase_of 1) closing) }
        ensures { Step (register_of self.entry) closing (Ok Taken) (closed_register result) }
    {
        let Hour {
            buses,
            positions,
            transactions,
            totals: _,
            phase: _,
        } = self;
        let positions = positions.finish();
        let transactions = transactions.finish();
        ClosedHour {
            buses,
            positions,
            transactions,
        }
    }
}
