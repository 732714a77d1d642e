// Reading a record, byte by byte: each field is tested before the next is looked at.
ghost use Rattle.std.specs.Prelude.{◌≡◌, ◌≤◌, [], length, take, nat_lt};
ghost use Rattle.std.specs.List.{take_while};
ghost use Rattle.numbers.specs.Field.{read_of};
ghost use Rattle.numbers.specs.Grammar.{within};
ghost use Rattle.records.specs.Held.{contents_of};
ghost use Rattle.records.specs.Laws.{FaultPlaces, OneRecord};
ghost use Rattle.records.specs.Reading.{fault_at, field_at, fields_at, list_at, record_at};
ghost use Rattle.refusals.specs.Outcomes.{Gives};

use crate::{END, FIRST, KIND, MOST, ROOM, Record};
use numbers::Number;
use refusals::{Fault, Reader, Refusal};

impl<'a> Record<'a> {
    // The plan of a record; the actions are handed out as a part of the record.
    #[tactic(auto, using(crate::proofs::FaultPlaces::fault_places, crate::proofs::OneRecord::one_record))]
    pub fn read(bytes: &'a [u8]) -> Result<Self, Fault>
        ensures reads { Gives contents_of (record_at bytes.now) result }
        ensures format { OneRecord }
        ensures places { FaultPlaces }
    {
        match bytes {
            [KIND, fields @ ..] => fields_in(fields),
            [] => Err(fault_at(Refusal::EndsEarly, 0)),
            _ => Err(fault_at(Refusal::WrongKind, 0)),
        }
    }
}

// The same for the bytes after the kind.
fn fields_in<'a>(fields: &'a [u8]) -> Result<Record<'a>, Fault>
    ensures { Gives contents_of (fields_at fields.now) result }
{
    let poses = field_in(fields, 1, 1, MOST)?;
    let actions = field_in(poses.rest, 2, 1, MOST)?;
    let end = field_in(actions.rest, 3, 0, poses.value - 1)?;
    let list = list_in(end.rest, actions.value)?;
    Ok(Record {
        poses: poses.value,
        actions: actions.value,
        end: end.value,
        list,
    })
}

// A field of one byte from `low` to `high`, which stands at `place` in the record, and the bytes after it.
fn field_in<'a>(rest: &'a [u8], place: usize, low: u32, high: u32) -> Result<Number<'a>, Fault>
    ensures { Gives read_of (field_at (within low high) place rest.now) result }
{
    let [byte, after @ ..] = rest else {
        return Err(fault_at(Refusal::EndsEarly, place));
    };
    let value = u32::from(*byte);
    if !(low..=high).contains(&value) {
        return Err(fault_at(Refusal::OutsideLimit, place));
    }
    Ok(Number { value, rest: after })
}

// The actions up to the end byte, after which nothing is left.
fn list_in<'a>(rest: &'a [u8], actions: u32) -> Result<&'a [u8], Fault>
    requires { actions ≤ 32 }
    ensures { Gives (λ s. s.now) (list_at actions [] rest.now) result }
{
    let count = actions_in(rest, actions);
    let (list, after) = rest.split_at(count);
    let [byte, more @ ..] = after else {
        return Err(fault_at(Refusal::EndsEarly, FIRST + count));
    };
    if u32::from(*byte) < actions {
        return Err(fault_at(Refusal::PlanTooLong, FIRST + count));
    }
    if *byte != END {
        return Err(fault_at(Refusal::OutsideLimit, FIRST + count));
    }
    if !more.is_empty() {
        return Err(fault_at(Refusal::LeftOver, FIRST + count + 1));
    }
    Ok(list)
}

// How many actions stand at the front of some bytes, up to the most that a plan has.
fn actions_in(rest: &[u8], actions: u32) -> usize
    ensures counts { result ≡ length (take ROOM (take_while (λ b. nat_lt b actions) rest.now)) }
    ensures within { result ≤ length rest.now }
{
    rest.iter()
        .take_while(|byte| u32::from(**byte) < actions)
        .take(ROOM)
        .count()
}

// A fault of the record reader.
// Beside the sheet's: each reader tells the place in a way of its own.
fn fault_at(refusal: Refusal, place: usize) -> Fault
    ensures { result ≡ fault_at refusal place }
{
    Fault {
        refusal,
        place,
        reader: Reader::Record,
    }
}
