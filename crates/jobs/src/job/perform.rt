// A call that is handed over as a value.
ghost use Rattle.jobs.specs.Reach.{Performs};

use crate::job::Job;
use feeders::Feeder;
use histories::{Answer, Call};

impl<F: Feeder> Job<F> {
    // Makes the call.
    pub fn perform(&mut self, call: &Call) -> Answer
        ensures { Performs (F.Feeder.motion self.old.feeder) self.old call.now self.new result }
    {
        // The one place where a call that is a value becomes a call that is made.
        match call {
            Call::Bar(action) => self.bar(*action),
            Call::Allow(action) => self.allow(*action),
            Call::Shake => self.shake(),
            Call::Step(action) => self.step(*action),
            Call::Plan => self.plan(),
            Call::Put(list) => self.put(list),
            Call::Add(action) => self.add(*action),
            Call::Cut(place) => self.cut(*place),
            Call::Aim(pose) => self.aim(*pose),
        }
    }
}
