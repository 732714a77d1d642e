// The numbered refusals that every call of the planner may answer, and the fault of a refused sheet or record.
#![tactic(auto)]

ghost use Rattle.std.specs.Prelude.{◌≡◌, Some};
ghost use Rattle.refusals.specs.Numbers.{number_of};
ghost use Rattle.refusals.specs.Printed.{fault_text, two_digits};

use std::error::Error;
use std::fmt;

// Why a call was refused. The discriminant is the number that users see (docs/REFUSALS.md).
#[derive(Clone, Copy, PartialEq, Eq, Debug)]
pub enum Refusal {
    NoPose = 1,
    NoAction = 2,
    Barred = 3,
    NoPlan = 4,
    NoPlace = 5,
    PlanTooLong = 6,
    Apart = 7,
    CannotOrient = 8,
    CannotEndThere = 9,
    EndsEarly = 10,
    BadNumber = 11,
    WrongKind = 12,
    OutsideLimit = 13,
    OutOfOrder = 14,
    LeftOver = 15,
    BufferTooShort = 16,
}

// The number that users see.
impl From<Refusal> for u8 {
    ghost from_gives = { λ refusal number. number ≡ number_of refusal };

    fn from(refusal: Refusal) -> u8 {
        refusal as u8
    }
}

// Printed as its number, in two digits.
impl fmt::Display for Refusal {
    ghost output = { λ refusal. Some (two_digits (number_of refusal)) };

    fn fmt<W: fmt::Write>(&self, f: &mut fmt::Formatter<W>) -> fmt::Result {
        let number = u8::from(*self);
        write!(f, "{number:02}")
    }
}

impl Error for Refusal {}

// Which reader stopped: at a number's form, at a sheet, or at a plan record.
#[derive(Clone, Copy, PartialEq, Eq, Debug)]
pub enum Reader {
    Number,
    Sheet,
    Record,
}

// Why bytes were refused, at which byte, and by which reader.
#[derive(Clone, Copy, PartialEq, Eq, Debug)]
pub struct Fault {
    pub refusal: Refusal,
    pub place: usize,
    pub reader: Reader,
}

// Printed as the refusal and the place.
impl fmt::Display for Fault {
    ghost output = { λ fault. Some (fault_text fault) };

    fn fmt<W: fmt::Write>(&self, f: &mut fmt::Formatter<W>) -> fmt::Result {
        write!(f, "{} {}", self.refusal, self.place)
    }
}

impl Error for Fault {}
