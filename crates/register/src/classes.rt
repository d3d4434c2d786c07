// The classes that a phase takes.
ghost use Rattle.std.specs.Prelude.{◌≡◌, ◌==◌, ℕ};
ghost use Rattle.register.specs.Views.{phase_of};
ghost use Rattle.register.specs.Weighed.{ClassNamed, ClassTaken};

use crate::phases::OpenPhase;
use positions::Class;
use refusals::Cause;

// The class of a number, where it exists after so many closings: bids and offers exist day-ahead only.
pub fn class_named(closings: u8, class: u8) -> Option<Class>
    ensures { ClassNamed (phase_of closings) class result }
{
    class_where(closings == 0, class).ok()
}

// The class of a number, where the phase takes it.
pub fn class_taken<P: OpenPhase>(number: u8) -> Result<Class, Cause>
    ensures { ClassTaken (phase_of P.closings) number result }
{
    class_where(P::TAKES_BIDS, number)
}

// The class of a number, in a phase with bids and offers or in one without.
fn class_where(bids: bool, number: u8) -> Result<Class, Cause>
    ensures { (closings : ℕ) → bids ≡ (closings == 0)
        → ClassTaken (phase_of closings) number result }
{
    let class = Class::try_from(number)?;
    let exists = match class {
        Class::Load | Class::Generation => true,
        Class::IncrementOffer | Class::DecrementBid => bids,
    };
    if exists {
        Ok(class)
    } else {
        Err(Cause::ClassNotTaken)
    }
}
