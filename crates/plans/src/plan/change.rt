// The calls that change a plan. A refused one leaves it as it was.
ghost use Rattle.std.specs.Prelude.{◌≡◌, []};
ghost use Rattle.plans.specs.Calls.{appended, pushed, put, without};
ghost use Rattle.plans.specs.Held.{list_of};
ghost use Rattle.refusals.specs.Outcomes.{Leaves};
ghost use Rattle.refusals.specs.declared.Refusal.TheVariants.{PlanTooLong};

use crate::plan::{Plan, ROOM};
use lists::Full;
use refusals::Refusal;

// The refusal of a list for which there is no room.
fn too_long(_full: Full) -> Refusal
    ensures { result ≡ PlanTooLong }
{
    Refusal::PlanTooLong
}

impl Plan {
    // One action more, at the end.
    pub fn push(&mut self, action: u8) -> Result<(), Refusal>
        ensures { Leaves list_of (pushed (list_of self.old) action) self.old self.new result }
    {
        self.actions.push(action).map_err(too_long)
    }

    // That list after what the plan has.
    pub fn append(&mut self, list: &[u8]) -> Result<(), Refusal>
        ensures { Leaves list_of (appended (list_of self.old) list.now) self.old self.new result }
    {
        self.actions.extend_from_slice(list).map_err(too_long)
    }

    // That list in place of what the plan has.
    pub fn replace(&mut self, list: &[u8]) -> Result<(), Refusal>
        ensures { Leaves list_of (put list.now) self.old self.new result }
    {
        // Tested first and filled in place: a second plan, put in place of this one, is written and copied with all its room.
        if list.len() > ROOM {
            return Err(Refusal::PlanTooLong);
        }
        self.clear();
        self.append(list)
    }

    // Takes out the action at a place, counted from 0.
    pub fn remove(&mut self, place: usize) -> Result<(), Refusal>
        ensures { Leaves list_of (without (list_of self.old) place) self.old self.new result }
    {
        self.actions.remove(place).ok_or(Refusal::NoPlace)?;
        Ok(())
    }

    // Takes all actions out.
    pub fn clear(&mut self)
        ensures { list_of self.new ≡ [] }
    {
        self.actions.clear();
    }
}
