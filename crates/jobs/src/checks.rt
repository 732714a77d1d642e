// What is asked of actions and lists before they are taken.
ghost use Rattle.std.specs.Prelude.{◌≡◌};
ghost use Rattle.std.specs.Result.{result_err, result_unwrap_or};
ghost use Rattle.feeders.specs.Image.{imaged};
ghost use Rattle.jobs.specs.Checks.{checked, first_bad};
ghost use Rattle.jobs.specs.Sets.{OnlyPose};

use crate::sets::only_pose;
use feeders::{Feeder, has, image};
use refusals::Refusal;

// The action as a byte, if the feeder has it and it is permitted; refuses an absent action, then a barred one.
// The feeder and the set are handed over one by one: the job that holds both has other parts that are written meanwhile.
pub(crate) fn usable<F: Feeder>(feeder: &F, allowed: u32, action: u32) -> Result<u8, Refusal>
    ensures { result ≡ checked (F.Feeder.motion feeder.now) allowed action }
{
    if action >= feeder.actions() {
        return Err(Refusal::NoAction);
    }
    if !has(allowed, action) {
        return Err(Refusal::Barred);
    }
    Ok(action as u8)
}

// Refuses a list as its first action that is absent or barred is refused.
pub(crate) fn all_usable<F: Feeder>(feeder: &F, allowed: u32, list: &[u8]) -> Result<(), Refusal>
    ensures { result_err result ≡ first_bad (F.Feeder.motion feeder.now) allowed list.now }
{
    for action in list {
        usable(feeder, allowed, u32::from(*action))?;
    }
    Ok(())
}

// Where the list brings the set; no poses for a set or a list that the feeder does not have.
pub(crate) fn brought<F: Feeder>(feeder: &F, set: u32, list: &[u8]) -> u32
    ensures { result ≡ result_unwrap_or (imaged (F.Feeder.motion feeder.now) set list.now) 0 }
{
    image(feeder, set, list).unwrap_or(0)
}

// The pose to which the list brings the set; none where that is another number of poses.
pub(crate) fn end_of<F: Feeder>(feeder: &F, set: u32, list: &[u8]) -> Option<u32>
    ensures { OnlyPose (result_unwrap_or (imaged (F.Feeder.motion feeder.now) set list.now) 0) result }
{
    only_pose(brought(feeder, set, list))
}
