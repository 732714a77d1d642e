// Fields of a sheet: the sheet reader's faults at their places, and numbers within limits.
// `whole` is the sheet, and `rest` is the end of it that starts at the field.
ghost use Rattle.std.specs.Prelude.{◌≡◌, ◌<◌, ◌≤◌, IfOk, nat_lt};
ghost use Rattle.numbers.specs.Field.{OfKind, Takes, byte_at, field_at, number_in, read_of, rest_of, whole_of};
ghost use Rattle.numbers.specs.Grammar.{cut_short, ended, fault_at, place, within};
ghost use Rattle.refusals.specs.Outcomes.{Gives};
ghost use Rattle.refusals.specs.declared.Reader.TheVariants.{Sheet};
ghost use Rattle.refusals.specs.declared.Refusal.TheVariants.{OutsideLimit};

use crate::{Number, read_in};
use refusals::{Fault, Reader, Refusal};

// A number from `low` to `high` at the front of `rest`, with the bytes after it.
pub fn limited<'a>(whole: &[u8], rest: &'a [u8], low: u32, high: u32) -> Result<Number<'a>, Fault>
    ensures gives { Gives read_of (field_at (within low high) OutsideLimit whole.now rest.now) result }
    ensures inside { IfOk result (λ n. (low ≤ n.value) × (n.value ≤ high)) }
{
    let number = read_in(whole, rest)?;
    if (low..=high).contains(&number.value) {
        Ok(number)
    } else {
        Err(Fields::new(whole, rest).fault(Refusal::OutsideLimit))
    }
}

// The same for a number below `end`, which may be 2 to the 32nd.
pub fn below<'a>(whole: &[u8], rest: &'a [u8], end: u64) -> Result<Number<'a>, Fault>
    ensures gives { Gives read_of (field_at (λ v. nat_lt v end) OutsideLimit whole.now rest.now) result }
    ensures inside { IfOk result (λ n. n.value < end) }
{
    let number = read_in(whole, rest)?;
    if u64::from(number.value) < end {
        Ok(number)
    } else {
        Err(Fields::new(whole, rest).fault(Refusal::OutsideLimit))
    }
}

// A sheet as it is read: all of it, and the end that is not read yet.
#[derive(Clone, Copy, PartialEq, Eq, Debug)]
pub struct Fields<'a> {
    whole: &'a [u8],
    rest: &'a [u8],
}

impl<'a> Fields<'a> {
    // The fields of `rest`, which is the end of `whole`. The places of faults are counted in `whole`.
    pub fn new(whole: &'a [u8], rest: &'a [u8]) -> Fields<'a>
        ensures whole { whole_of result ≡ whole.now }
        ensures rest { rest_of result ≡ rest.now }
    {
        Fields { whole, rest }
    }

    // The fields after the kind byte of a sheet, which must be `kind`.
    pub fn of_kind(sheet: &'a [u8], kind: u8) -> Result<Fields<'a>, Fault>
        ensures { OfKind kind sheet.now result }
    {
        let mut fields = Fields::new(sheet, sheet);
        if fields.byte()? == kind {
            Ok(fields)
        } else {
            Err(Fields::new(sheet, sheet).fault(Refusal::WrongKind))
        }
    }

    // The next number.
    pub fn number(&mut self) -> Result<u32, Fault>
        ensures { Takes number_in self.old self.new result }
    {
        let Number { value, rest } = read_in(self.whole, self.rest)?;
        self.rest = rest;
        Ok(value)
    }

    // The next number, from `low` to `high`.
    pub fn limited(&mut self, low: u32, high: u32) -> Result<u32, Fault>
        ensures takes { Takes (field_at (within low high) OutsideLimit) self.old self.new result }
        ensures inside { IfOk result (λ v. (low ≤ v) × (v ≤ high)) }
    {
        let Number { value, rest } = limited(self.whole, self.rest, low, high)?;
        self.rest = rest;
        Ok(value)
    }

    // The next number, below `end`, which may be 2 to the 32nd.
    pub fn below(&mut self, end: u64) -> Result<u32, Fault>
        ensures takes { Takes (field_at (λ v. nat_lt v end) OutsideLimit) self.old self.new result }
        ensures inside { IfOk result (λ v. v < end) }
    {
        let Number { value, rest } = below(self.whole, self.rest, end)?;
        self.rest = rest;
        Ok(value)
    }

    // The next byte.
    pub fn byte(&mut self) -> Result<u8, Fault>
        ensures { Takes byte_at self.old self.new result }
    {
        let [byte, rest @ ..] = self.rest else {
            return Err(self.cut_short());
        };
        self.rest = rest;
        Ok(*byte)
    }

    // After the last field nothing is left.
    pub fn ended(&self) -> Result<(), Fault>
        ensures { result ≡ ended (whole_of self.now) (rest_of self.now) tt }
    {
        if self.rest.is_empty() {
            Ok(())
        } else {
            Err(self.fault(Refusal::LeftOver))
        }
    }

    // A fault of the sheet reader: the place is the first byte of the field that begins here.
    pub fn fault(&self, refusal: Refusal) -> Fault
        ensures { result ≡ fault_at refusal Sheet (whole_of self.now) (rest_of self.now) }
    {
        Fault {
            refusal,
            place: self.place(),
            reader: Reader::Sheet,
        }
    }

    // A sheet that ends early: the place is its end.
    pub fn cut_short(&self) -> Fault
        ensures { result ≡ cut_short Sheet (whole_of self.now) }
    {
        Fault {
            refusal: Refusal::EndsEarly,
            place: self.whole.len(),
            reader: Reader::Sheet,
        }
    }

    // The place of the first byte that is not read yet.
    pub(crate) fn place(&self) -> usize
        ensures { result ≡ place (whole_of self.now) (rest_of self.now) }
    {
        self.whole.len().saturating_sub(self.rest.len())
    }
}
