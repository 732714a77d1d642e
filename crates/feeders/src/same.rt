// Whether two feeders, or two lists, are the same.
ghost use Rattle.std.specs.Prelude.{◌≡◌, ℕ, ◌<◌, ◌↔◌, T};
ghost use Rattle.feeders.specs.Motion.{Same};

use crate::feeder::Feeder;

// Whether the feeders have the same poses, the same actions and the same moves.
pub fn same_feeder<F: Feeder, G: Feeder>(first: &F, second: &G) -> bool
    ensures { T result ↔ Same (F.Feeder.motion first.now) (G.Feeder.motion second.now) }
{
    let poses = first.poses();
    if second.poses() != poses || second.actions() != first.actions() {
        return false;
    }
    (0..poses).all(|pose| same_moves(first, second, pose))
}

// Whether every action leads from `pose` to the same pose, in feeders with the same poses and actions.
fn same_moves<F: Feeder, G: Feeder>(first: &F, second: &G, pose: u32) -> bool
    requires pose_bound { pose < (F.Feeder.motion first.now).poses }
    requires same_poses { (F.Feeder.motion first.now).poses ≡ (G.Feeder.motion second.now).poses }
    requires same_actions { (F.Feeder.motion first.now).actions ≡ (G.Feeder.motion second.now).actions }
    ensures { T result ↔ ((a : ℕ) → a < (F.Feeder.motion first.now).actions → (F.Feeder.motion first.now).next pose a ≡ (G.Feeder.motion second.now).next pose a) }
{
    (0..first.actions()).all(|action| first.follow(pose, action) == second.follow(pose, action))
}

// Whether the lists are the same, entry by entry; an entry that is no action counts too.
pub fn same_list(first: &[u8], second: &[u8]) -> bool
    ensures { T result ↔ (first.now ≡ second.now) }
{
    first == second
}
