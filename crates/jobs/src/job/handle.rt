// A new job, and the calls that handle the part: bar, allow, shake, step.
ghost use Rattle.std.specs.Prelude.{◌≡◌, [], None};
ghost use Rattle.graphs.specs.PairRule.{every};
ghost use Rattle.histories.specs.Rules.{advanced};
ghost use Rattle.histories.specs.declared.call.Call.TheVariants.{Allow, Bar, Shake, Step};
ghost use Rattle.jobs.specs.Reach.{Performs, Reached, plan_of};

use crate::checks::{brought, usable};
use crate::job::Job;
use crate::sets::{with_number, without_number};
use feeders::Feeder;
use histories::Answer;
use plans::Plan;
use refusals::Refusal;

impl<F: Feeder> Job<F> {
    // All actions are permitted, all poses are possible, and no plan is held.
    pub fn new(feeder: F) -> Job<F>
        ensures same { result.feeder ≡ feeder }
        ensures reached { Reached (F.Feeder.motion feeder) [] None result }
    {
        let allowed = feeders::every(feeder.actions());
        let poses = feeders::every(feeder.poses());
        Job {
            feeder,
            allowed,
            poses,
            plan: Plan::new(),
            held: false,
        }
    }

    // The action is barred; all poses are possible again, and the plan is gone.
    // Bar and allow differ in one call: a function with that call as an argument is longer than both.
    pub fn bar(&mut self, action: u32) -> Answer
        ensures { Performs (F.Feeder.motion self.old.feeder) self.old (Bar action) self.new result }
    {
        if action >= self.feeder.actions() {
            return Err(Refusal::NoAction);
        }
        self.allowed = without_number(self.allowed, action);
        self.reset();
        Ok(None)
    }

    // The action is permitted; all poses are possible again, and the plan is gone.
    pub fn allow(&mut self, action: u32) -> Answer
        ensures { Performs (F.Feeder.motion self.old.feeder) self.old (Allow action) self.new result }
    {
        if action >= self.feeder.actions() {
            return Err(Refusal::NoAction);
        }
        self.allowed = with_number(self.allowed, action);
        self.reset();
        Ok(None)
    }

    // All poses are possible again, and the plan is gone.
    pub fn shake(&mut self) -> Answer
        ensures { Performs (F.Feeder.motion self.old.feeder) self.old Shake self.new result }
    {
        self.reset();
        Ok(None)
    }

    // The action is performed: the possible poses become their image, and a plan that begins with the action loses it; any other is gone.
    pub fn step(&mut self, action: u32) -> Answer
        ensures { Performs (F.Feeder.motion self.old.feeder) self.old (Step action) self.new result }
    {
        let a = usable(&self.feeder, self.allowed, action)?;
        self.poses = brought(&self.feeder, self.poses, &[a]);
        self.advance(a);
        Ok(self.plan_len())
    }

    // Any pose is possible, and no plan is held.
    fn reset(&mut self)
        ensures feeder { self.new.feeder ≡ self.old.feeder }
        ensures allowed { self.new.allowed ≡ self.old.allowed }
        ensures poses { self.new.poses ≡ every (F.Feeder.motion self.old.feeder) }
        ensures plan { plan_of self.new ≡ None }
    {
        self.poses = feeders::every(self.feeder.poses());
        self.held = false;
    }

    // What a step leaves of the plan.
    fn advance(&mut self, action: u8)
        ensures feeder { self.new.feeder ≡ self.old.feeder }
        ensures allowed { self.new.allowed ≡ self.old.allowed }
        ensures poses { self.new.poses ≡ self.old.poses }
        ensures plan { plan_of self.new ≡ advanced (plan_of self.old) action }
    {
        self.held = self.held && self.plan.as_slice().starts_with(&[action]);
        if self.held {
            self.plan.remove(0).unwrap();
        }
    }
}
