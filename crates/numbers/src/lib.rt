// Numbers in bytes: seven bits a group, lowest first, in the shortest form.
#![tactic(auto)]

ghost use Rattle.std.specs.Prelude.{◌≡◌};
ghost use Rattle.numbers.specs.Answers.{Answers};
ghost use Rattle.numbers.specs.Field.{read_of};
ghost use Rattle.numbers.specs.Grammar.{number_fault};
ghost use Rattle.numbers.specs.Reading.{joined, read_by};
ghost use Rattle.numbers.specs.Spelling.{OneSpelling};
ghost use Rattle.refusals.specs.Outcomes.{Gives};

use refusals::{Fault, Reader, Refusal};

mod fields;

pub use fields::{Fields, below, limited};

// A number, and the bytes after it.
#[derive(Clone, Copy, PartialEq, Eq, Debug)]
pub struct Number<'a> {
    pub value: u32,
    pub rest: &'a [u8],
}

// The most groups that a number of 32 bits has.
const MOST_GROUPS: u8 = 5;

// What one group can count. A group that calls for another has this added.
const GROUP: u8 = 128;

// A higher part worth another group starts here: with 0 there, the form is not the shortest.
const LEAST_HIGH: u32 = 1;

// From here on, a higher part and the seven bits below it have more than 32.
const TOO_HIGH: u32 = 1 << 25;

// The number at the front of `rest`, which is the end of `whole`. The place of a fault is counted in `whole`.
pub fn read_in<'a>(whole: &[u8], rest: &'a [u8]) -> Result<Number<'a>, Fault>
    ensures reads { Answers whole.now rest.now result }
{
    read_groups(rest, MOST_GROUPS).map_err(|refusal| fault(whole, rest, refusal))
}

// The number at the front of `bytes`. Each number of 32 bits has one spelling that is accepted, in front of any bytes.
pub fn read<'a>(bytes: &'a [u8]) -> Result<Number<'a>, Fault>
    ensures reads { Answers bytes.now bytes.now result }
    ensures spelling { OneSpelling }
{
    read_in(bytes, bytes)
}

// The number of at most `most` groups at the front of `bytes`.
#[tactic(auto, using(crate::proofs::Reading::more_groups))]
fn read_groups<'a>(bytes: &'a [u8], most: u8) -> Result<Number<'a>, Refusal>
    ensures { Gives read_of (read_by most bytes.now) result }
{
    if most == 0 {
        return Err(Refusal::BadNumber);
    }
    let [group, rest @ ..] = bytes else {
        return Err(Refusal::EndsEarly);
    };
    if *group < GROUP {
        return Ok(Number {
            value: u32::from(*group),
            rest,
        });
    }
    joined(*group, read_groups(rest, most - 1)?)
}

// A group that calls for others, in front of the higher part that they make.
fn joined<'a>(group: u8, high: Number<'a>) -> Result<Number<'a>, Refusal>
    ensures { Gives read_of (joined group (Ok (read_of high.entry))) result }
{
    if !(LEAST_HIGH..TOO_HIGH).contains(&high.value) {
        return Err(Refusal::BadNumber);
    }
    let value = u32::from(group % GROUP) + u32::from(GROUP) * high.value;
    Ok(Number {
        value,
        rest: high.rest,
    })
}

// A refusal at its place: bytes that end early are refused at their end, and a bad number at its first byte.
// Beside the sheet's: each reader tells the place in a way of its own.
fn fault(whole: &[u8], rest: &[u8], refusal: Refusal) -> Fault
    ensures { result ≡ number_fault whole.now rest.now refusal }
{
    let place = match refusal {
        Refusal::EndsEarly => whole.len(),
        _ => Fields::new(whole, rest).place(),
    };
    Fault {
        refusal,
        place,
        reader: Reader::Number,
    }
}

#[cfg(test)]
mod tests {
    use super::*;
    use std::process::Abort;
    use std::test::Fail;

    fn accepts(rt: &impl Abort, bytes: &[u8], value: u32, left: usize) -> Result<(), Fail> {
        let number = read(bytes)?;
        assert_eq!(rt; number.value, value);
        assert_eq!(rt; number.rest.len(), left);
        Ok(())
    }

    fn refuses(rt: &impl Abort, whole: &[u8], rest: &[u8], refusal: Refusal, place: usize) {
        let fault = Fault {
            refusal,
            place,
            reader: Reader::Number,
        };
        assert_eq!(rt; read_in(whole, rest).err(), Some(fault));
    }

    #[test]
    fn the_shortest_form(rt: HostRuntime) -> Result<(), Fail> {
        accepts(&rt, &[0], 0, 0)?;
        accepts(&rt, &[0x7F, 9], 127, 1)?;
        accepts(&rt, &[0xAC, 0x02], 300, 0)?;
        accepts(&rt, &[0xFF, 0xFF, 0xFF, 0xFF, 0x0F], 4_294_967_295, 0)
    }

    #[test]
    fn bad_numbers(rt: HostRuntime) {
        refuses(&rt, &[0x80, 0x00], &[0x80, 0x00], Refusal::BadNumber, 0);
        refuses(&rt, &[0x80; 5], &[0x80; 5], Refusal::BadNumber, 0);
        refuses(&rt, &[0x80; 6], &[0x80; 6], Refusal::BadNumber, 0);
        let over = [0xFF, 0xFF, 0xFF, 0xFF, 0x10];
        refuses(&rt, &over, &over, Refusal::BadNumber, 0);
    }

    #[test]
    fn bytes_that_end_early(rt: HostRuntime) {
        refuses(&rt, &[], &[], Refusal::EndsEarly, 0);
        refuses(&rt, &[0x80; 4], &[0x80; 4], Refusal::EndsEarly, 4);
    }

    #[test]
    fn places_in_the_whole(rt: HostRuntime) {
        refuses(
            &rt,
            &[1, 7, 0x80, 0x00],
            &[0x80, 0x00],
            Refusal::BadNumber,
            2,
        );
        refuses(&rt, &[1, 7, 0x80], &[0x80], Refusal::EndsEarly, 3);
    }

    fn refuses_field<T: Drop>(
        rt: &impl Abort,
        field: Result<T, Fault>,
        refusal: Refusal,
        place: usize,
        reader: Reader,
    ) {
        let fault = Fault {
            refusal,
            place,
            reader,
        };
        assert_eq!(rt; field.err(), Some(fault));
    }

    #[test]
    fn limits_at_both_ends(rt: HostRuntime) -> Result<(), Fail> {
        assert_eq!(rt; Fields::new(&[9, 2], &[2]).limited(2, 4)?, 2);
        assert_eq!(rt; Fields::new(&[9, 4], &[4]).limited(2, 4)?, 4);
        refuses_field(
            &rt,
            Fields::new(&[9, 1], &[1]).limited(2, 4),
            Refusal::OutsideLimit,
            1,
            Reader::Sheet,
        );
        refuses_field(
            &rt,
            Fields::new(&[9, 5], &[5]).limited(2, 4),
            Refusal::OutsideLimit,
            1,
            Reader::Sheet,
        );
        refuses_field(
            &rt,
            Fields::new(&[9], &[]).limited(2, 4),
            Refusal::EndsEarly,
            1,
            Reader::Number,
        );
        Ok(())
    }

    #[test]
    fn below_an_end(rt: HostRuntime) -> Result<(), Fail> {
        let most = [0xFF, 0xFF, 0xFF, 0xFF, 0x0F];
        assert_eq!(rt; Fields::new(&most, &most).below(1 << 32)?, 4_294_967_295);
        assert_eq!(rt; Fields::new(&[3], &[3]).below(4)?, 3);
        refuses_field(
            &rt,
            Fields::new(&[9, 4], &[4]).below(4),
            Refusal::OutsideLimit,
            1,
            Reader::Sheet,
        );
        Ok(())
    }

    #[test]
    fn fields_of_a_kind(rt: HostRuntime) -> Result<(), Fail> {
        let mut fields = Fields::of_kind(&[3, 0xAC, 0x02, 7], 3)?;
        assert_eq!(rt; fields.number()?, 300);
        refuses_field(&rt, fields.ended(), Refusal::LeftOver, 3, Reader::Sheet);
        assert_eq!(rt; fields.byte()?, 7);
        fields.ended()?;
        refuses_field(&rt, fields.byte(), Refusal::EndsEarly, 4, Reader::Sheet);
        refuses_field(
            &rt,
            Fields::of_kind(&[3], 2),
            Refusal::WrongKind,
            0,
            Reader::Sheet,
        );
        refuses_field(
            &rt,
            Fields::of_kind(&[], 2),
            Refusal::EndsEarly,
            0,
            Reader::Sheet,
        );
        Ok(())
    }
}
