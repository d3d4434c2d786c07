// What a call on an open hour answers.
ghost use Rattle.std.specs.Prelude.{Some};
ghost use Rattle.register.specs.Printed.{text_of};

use refusals::Cause;
use std::fmt;

// A posting answers the number of its first record, and any other call that it was taken.
#[derive(Clone, Copy, PartialEq, Eq, Debug)]
pub enum Accepted {
    RecordNumber(usize),
    Taken,
}

// A call is taken, or refused by its cause.
pub type Answer = Result<Accepted, Cause>;

impl fmt::Display for Accepted {
    ghost output = { λ a. Some (text_of a) };

    fn fmt<W: fmt::Write>(&self, f: &mut fmt::Formatter<W>) -> fmt::Result {
        match self {
            Accepted::RecordNumber(number) => write!(f, "record {number}"),
            Accepted::Taken => f.write_str("taken"),
        }
    }
}
