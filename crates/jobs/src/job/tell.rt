// What a job tells of itself. None of these calls changes it.
ghost use Rattle.std.specs.Prelude.{◌≡◌, ◌+◌, ◌*◌, ◌≤◌, length, option_map, IfOk};
ghost use Rattle.std.specs.Option.{option_copied};
ghost use Rattle.plans.specs.Held.{list_of};
ghost use Rattle.histories.specs.History.{permitted as permitted_set, possible as possible_set};
ghost use Rattle.histories.specs.Rules.{length_of};
ghost use Rattle.jobs.specs.Reach.{plan_of};
ghost use Rattle.jobs.specs.Tells.{Actions, EndPose, Tells, Traces, Writes};

use crate::checks::end_of;
use crate::job::Job;
use feeders::Feeder;
use plans::Plan;
use records::Record;
use refusals::Refusal;
use traces::write_trace;

impl<F: Feeder> Job<F> {
    // The feeder.
    pub fn feeder(&self) -> &F
        ensures { result.now ≡ self.now.feeder }
    {
        &self.feeder
    }

    // The permitted actions, as a set.
    pub fn permitted(&self) -> u32
        ensures { Tells (F.Feeder.motion self.now.feeder) self.now (λ h plan. result ≡ permitted_set (F.Feeder.motion self.now.feeder) h) }
    {
        self.allowed
    }

    // The possible poses, as a set.
    pub fn possible(&self) -> u32
        ensures { Tells (F.Feeder.motion self.now.feeder) self.now (λ h plan. result ≡ possible_set (F.Feeder.motion self.now.feeder) h) }
    {
        self.poses
    }

    // The length of the plan, if one is held.
    pub fn plan_len(&self) -> Option<usize>
        ensures stored { result ≡ length_of (plan_of self.now) }
        ensures told { Tells (F.Feeder.motion self.now.feeder) self.now (λ h plan. result ≡ length_of plan) }
    {
        self.held_plan().map(Plan::len)
    }

    // The actions of the plan, if one is held.
    pub fn plan_actions(&self) -> Option<&[u8]>
        ensures stored { option_copied result ≡ plan_of self.now }
        ensures told { Tells (F.Feeder.motion self.now.feeder) self.now (λ h plan. Actions plan result) }
    {
        self.held_plan().map(Plan::as_slice)
    }

    // The plan, if one is held.
    fn held_plan(&self) -> Option<&Plan>
        ensures { option_map list_of (option_copied result) ≡ plan_of self.now }
    {
        self.held.then_some(&self.plan)
    }

    // The pose in which the plan ends, if one is held.
    pub fn end_pose(&self) -> Option<u32>
        ensures { Tells (F.Feeder.motion self.now.feeder) self.now (λ h plan. EndPose (F.Feeder.motion self.now.feeder) h plan result) }
    {
        let list = self.plan_actions()?;
        end_of(&self.feeder, self.poses, list)
    }

    // Writes the plan as a record to the front of the buffer, and answers how many bytes the record has.
    pub fn write(&self, buffer: &mut [u8]) -> Result<usize, Refusal>
        ensures { Tells (F.Feeder.motion self.now.feeder) self.now (λ h plan. Writes (F.Feeder.motion self.now.feeder) h buffer.old buffer.new result plan) }
    {
        let list = self.plan_actions().ok_or(Refusal::NoPlan)?;
        let end = self.end_pose().ok_or(Refusal::NoPlan)?;
        let poses = self.feeder.poses();
        let actions = self.feeder.actions();
        let record = Record {
            poses,
            actions,
            end,
            list,
        };
        record.write(buffer)
    }

    // Writes a row for the start and one for each action of the plan to the front of the buffer, and answers the plan's length.
    pub fn trace(&self, buffer: &mut [u8]) -> Result<usize, Refusal>
        ensures room { IfOk result (λ n. 12 * (n + 1) ≤ length buffer.old) }
        ensures told { Tells (F.Feeder.motion self.now.feeder) self.now (λ h plan. Traces (F.Feeder.motion self.now.feeder) h buffer.old buffer.new result plan) }
    {
        let list = self.plan_actions().ok_or(Refusal::NoPlan)?;
        write_trace(&self.feeder, self.poses, list, buffer)?;
        Ok(list.len())
    }

    // Uses up the job, and gives the feeder back.
    pub fn finish(self) -> F
        ensures { result ≡ self.feeder }
    {
        self.feeder
    }
}
