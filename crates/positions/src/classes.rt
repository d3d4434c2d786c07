// The classes of bus positions, and the totals that positions count in.
ghost use Rattle.std.specs.Prelude.{◌≡◌};
ghost use Rattle.positions.specs.Classes.{ClassNumbered, side_of};

use refusals::Cause;

// Bids and offers exist day-ahead only.
#[derive(Clone, Copy)]
pub enum Class {
    Load,
    DecrementBid,
    Generation,
    IncrementOffer,
}

// The three totals of a phase.
#[derive(Clone, Copy)]
pub enum Side {
    Withdrawing,
    Injecting,
    Transacting,
}

impl Class {
    // The total that positions of this class count in.
    pub fn side(self) -> Side
        ensures { result ≡ side_of self }
    {
        match self {
            Class::Load | Class::DecrementBid => Side::Withdrawing,
            Class::Generation | Class::IncrementOffer => Side::Injecting,
        }
    }
}

impl TryFrom<u8> for Class {
    type Error = Cause;

    ghost try_from_gives = { ClassNumbered };

    fn try_from(number: u8) -> Result<Self, Cause> {
        match number {
            1 => Ok(Class::Load),
            2 => Ok(Class::DecrementBid),
            3 => Ok(Class::Generation),
            4 => Ok(Class::IncrementOffer),
            _ => Err(Cause::ClassNotTaken),
        }
    }
}
