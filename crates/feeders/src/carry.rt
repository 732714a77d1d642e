// Where a list of actions brings a set of poses.
ghost use Rattle.std.specs.Prelude.{◌≡◌, ◌<◌, T};
ghost use Rattle.feeders.specs.Motion.{brings};
ghost use Rattle.feeders.specs.Sets.{all_below};
ghost use Rattle.feeders.specs.Image.{image as image_of, imaged};
ghost use Rattle.feeders.specs.Laws.{ImageLaws};

use crate::bits::{all_below, has_pose, is_within};
use crate::feeder::Feeder;
use refusals::Refusal;

// The poses to which the list brings the poses of the set; refuses a set with an absent pose, then a list with an absent action.
pub fn image<F: Feeder>(feeder: &F, set: u32, list: &[u8]) -> Result<u32, Refusal>
    ensures answer { result ≡ imaged (F.Feeder.motion feeder.now) set list.now }
    ensures laws { ImageLaws (F.Feeder.motion feeder.now) }
{
    if !is_within(set, feeder.poses()) {
        return Err(Refusal::NoPose);
    }
    if !all_below(list, feeder.actions()) {
        return Err(Refusal::NoAction);
    }
    Ok(gather(feeder, set, list))
}

// The pose to which the whole list brings `pose`.
// A loop and no fold: the pose that is reached has a name of its own.
fn carried<F: Feeder>(feeder: &F, pose: u32, list: &[u8]) -> u32
    requires { (pose < (F.Feeder.motion feeder.now).poses) × (T (all_below (F.Feeder.motion feeder.now).actions list.now)) }
    ensures is { result ≡ brings (F.Feeder.motion feeder.now) pose list.now }
    ensures stays { result < (F.Feeder.motion feeder.now).poses }
{
    let mut here = pose;
    for action in list {
        here = feeder.follow(here, u32::from(*action)).unwrap();
    }
    here
}

// The poses to which the list brings the poses of the set, each pose carried on its own.
// A loop and no fold: the set that is gathered has a name of its own.
fn gather<F: Feeder>(feeder: &F, set: u32, list: &[u8]) -> u32
    requires { T (all_below (F.Feeder.motion feeder.now).actions list.now) }
    ensures { result ≡ image_of (F.Feeder.motion feeder.now) set list.now }
{
    let mut reached = 0;
    for pose in 0..feeder.poses() {
        if has_pose(set, pose) {
            reached |= 1 << carried(feeder, pose, list);
        }
    }
    reached
}
