// Writing a record: all tests come before the first byte is written.
ghost use Rattle.std.specs.Prelude.{◌≡◌, ◌+◌, ◌≤◌, ◌++◌, length, take, drop, IfOk, Ok};
ghost use Rattle.records.specs.Contents.{fits};
ghost use Rattle.records.specs.Format.{spell};
ghost use Rattle.records.specs.Held.{contents_of};
ghost use Rattle.records.specs.Laws.{OneRecord};
ghost use Rattle.records.specs.Reading.{record_at};
ghost use Rattle.records.specs.Writing.{written};
ghost use Rattle.refusals.specs.Outcomes.{Leaves};

use crate::{END, FIRST, KIND, MOST, ROOM, Record};
use feeders::all_below;
use refusals::Refusal;

impl Record<'_> {
    // Writes the record at the front of the buffer, and answers how many bytes it has.
    // A refused write leaves the buffer as it was.
    #[tactic(auto, using(crate::proofs::OneRecord::one_record))]
    pub fn write(&self, buffer: &mut [u8]) -> Result<usize, Refusal>
        ensures leaves { Leaves (λ b. b) (written (contents_of self.now) buffer.old) buffer.old buffer.new result }
        ensures counts { IfOk result (λ n. n ≡ length (spell (contents_of self.now))) }
        ensures room { IfOk result (λ n. n ≤ length buffer.old) }
        ensures back { IfOk result (λ n. record_at (take n buffer.new) ≡ Ok (contents_of self.now)) }
        ensures format { OneRecord }
    {
        if !self.is_in_limits() {
            return Err(Refusal::OutsideLimit);
        }
        if self.list.len() > ROOM {
            return Err(Refusal::PlanTooLong);
        }
        let last = FIRST + self.list.len();
        if buffer.len() <= last {
            return Err(Refusal::BufferTooShort);
        }
        let fields = [KIND, self.poses as u8, self.actions as u8, self.end as u8];
        buffer[..FIRST].copy_from_slice(&fields);
        buffer[FIRST..last].copy_from_slice(self.list);
        buffer[last] = END;
        Ok(last + 1)
    }

    // Whether a record can say this, however long the plan is.
    fn is_in_limits(&self) -> bool
        ensures { result ≡ fits (contents_of self.now) }
    {
        (1..=MOST).contains(&self.poses)
            && (1..=MOST).contains(&self.actions)
            && self.end < self.poses
            && all_below(self.list, self.actions)
    }
}
