// Why a call is refused: the cause, the number by which it is answered, and the layer that refuses.
#![tactic(auto)]

ghost use Rattle.std.specs.Prelude.{◌≡◌, ℕ, ◌++◌, Some, codes, decimal};
ghost use Rattle.refusals.specs.Causes.{layer, number};

mod layer;

pub use layer::Layer;
use std::error::Error;
use std::fmt;

// A refusal has one cause, and each has its number. Of several that hold, the one with the smallest number is answered.
#[derive(Clone, Copy, PartialEq, Eq, Debug)]
pub enum Cause {
    // a bus that is not below n
    BusOutOfRange = 1,
    // a participant above 15
    ParticipantOutOfRange = 2,
    // a class that is not 1 to 4, or one of day-ahead alone in real time
    ClassNotTaken = 3,
    // a total of the phase would pass 1,000,000
    TotalOverLimit = 4,
    // a transaction from a bus to itself
    SourceIsSink = 5,
    // too few free records
    LedgerFull = 6,
    // no such record, or one of a closed phase
    RecordNotOpen = 7,
    // a phase whose withdrawals and injections differ
    Unbalanced = 8,
    // no members, or shares that do not add to 10,000
    AreaNotWhole = 9,
    // a network with another number of buses than the hour
    OtherBusCount = 10,
    // a constraint that is not below m
    ConstraintOutOfRange = 11,
    // a row of the wrong length
    RowLength = 12,
    // an hour or a network outside the limits
    OutsideLimits = 13,
    // weights that add to nought or to more than 2,000,000,000
    WeightOutOfRange = 14,
    // a line that is no frame
    MalformedLine = 15,
    // a frame that does not come next
    FrameOutOfPlace = 16,
}

impl Cause {
    // The number of the cause, from 1 to 16. No two causes have the same. A method, since `u8::from` would not say what the number is.
    pub fn number(self) -> u8
        ensures value { result ≡ number self }
        ensures apart { (d : Cause) → number d ≡ result → d ≡ self }
    {
        self as u8
    }

    // The layer that answers this cause.
    pub fn layer(self) -> Layer
        ensures { result ≡ layer self }
    {
        match self {
            Cause::MalformedLine | Cause::FrameOutOfPlace => Layer::Reader,
            Cause::OtherBusCount | Cause::OutsideLimits => Layer::Network,
            _ => Layer::Hour,
        }
    }
}

impl fmt::Display for Cause {
    ghost output = { λ c. Some (codes "refused by " ++ decimal (number c)) };

    fn fmt<W: fmt::Write>(&self, f: &mut fmt::Formatter<W>) -> fmt::Result {
        let number = self.number();
        write!(f, "refused by {number}")
    }
}

impl Error for Cause {}
