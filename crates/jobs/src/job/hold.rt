// The calls that make, take and change the plan: plan, put, add, cut, aim.
ghost use Rattle.histories.specs.declared.call.Call.TheVariants.{Add, Aim, Cut, Plan, Put};
ghost use Rattle.jobs.specs.Reach.{Performs};

use crate::checks::{all_usable, end_of, usable};
use crate::job::Job;
use feeders::Feeder;
use histories::Answer;
use planning::{append_way_to, plan_pairs};
use plans::ROOM;
use refusals::Refusal;

impl<F: Feeder> Job<F> {
    // The plan becomes the one that the pair rule gives from the possible poses.
    pub fn plan(&mut self) -> Answer
        ensures { Performs (F.Feeder.motion self.old.feeder) self.old Plan self.new result }
    {
        // Straight into the job's plan, which a refusal leaves as it was: a second plan costs 16 KB made and 16 KB copied.
        plan_pairs(&self.feeder, self.allowed, self.poses, &mut self.plan)?;
        self.held = true;
        Ok(Some(self.plan.len()))
    }

    // The plan becomes the list.
    pub fn put(&mut self, list: &[u8]) -> Answer
        ensures { Performs (F.Feeder.motion self.old.feeder) self.old (Put list.entry) self.new result }
    {
        // Asked before the rest, since the length is refused first; no second plan is filled to find it out.
        if list.len() > ROOM {
            return Err(Refusal::PlanTooLong);
        }
        all_usable(&self.feeder, self.allowed, list)?;
        end_of(&self.feeder, self.poses, list).ok_or(Refusal::Apart)?;
        self.plan.replace(list)?;
        self.held = true;
        Ok(Some(self.plan.len()))
    }

    // One action more at the plan's end.
    pub fn add(&mut self, action: u32) -> Answer
        ensures { Performs (F.Feeder.motion self.old.feeder) self.old (Add action) self.new result }
    {
        if !self.held {
            return Err(Refusal::NoPlan);
        }
        self.plan.push(usable(&self.feeder, self.allowed, action)?)?;
        Ok(Some(self.plan.len()))
    }

    // The plan without the action at the place, counted from 0.
    pub fn cut(&mut self, place: usize) -> Answer
        ensures { Performs (F.Feeder.motion self.old.feeder) self.old (Cut place) self.new result }
    {
        if !self.held {
            return Err(Refusal::NoPlan);
        }
        let mut rest = self.plan;
        rest.remove(place)?;
        end_of(&self.feeder, self.poses, rest.as_slice()).ok_or(Refusal::Apart)?;
        self.plan = rest;
        Ok(Some(self.plan.len()))
    }

    // The way from the plan's end pose to the pose is appended.
    pub fn aim(&mut self, pose: u32) -> Answer
        ensures { Performs (F.Feeder.motion self.old.feeder) self.old (Aim pose) self.new result }
    {
        let end = self.end_pose().ok_or(Refusal::NoPlan)?;
        append_way_to(&self.feeder, self.allowed, end, pose, &mut self.plan)?;
        Ok(Some(self.plan.len()))
    }
}
