// The ground of one part: a feeder's poses, with one of them for the goal.
ghost use Rattle.std.specs.Prelude.{◌≡◌, ◌<◌, ◌≤◌, Ok, Err};
ghost use Rattle.refusals.specs.declared.Refusal.TheVariants.{NoPose};
ghost use Rattle.graphs.specs.Poses.{pose_graph};
ghost use Rattle.grounds.specs.Sound.{pose_sound};

use crate::ground::Ground;
use feeders::Feeder;
use refusals::Refusal;

#[derive(Drop)]
pub struct PoseGround<'a, F: Feeder> {
    feeder: &'a F,
    goal: u32,
}

impl<'a, F: Feeder> PoseGround<'a, F> {
    // The ground of the feeder's poses; refuses an absent goal.
    pub fn new(feeder: &'a F, goal: u32) -> Result<PoseGround<'a, F>, Refusal>
        ensures { elim result [
          | Ok g ↦ (goal < (F.Feeder.motion feeder.now).poses) × (g.feeder.now ≡ feeder.now) × (g.goal ≡ goal)
          | Err e ↦ ((F.Feeder.motion feeder.now).poses ≤ goal) × (e ≡ NoPose)
        ] }
    {
        if goal >= feeder.poses() {
            return Err(Refusal::NoPose);
        }
        Ok(PoseGround { feeder, goal })
    }
}

impl<'a, F: Feeder> Ground for PoseGround<'a, F> {
    ghost graph = { λ g. pose_graph (F.Feeder.motion g.feeder.now) g.goal };

    ghost sound = { λ g. pose_sound (F.Feeder.motion g.feeder.now) g.goal (F.Feeder.valid g.feeder.now) };

    fn nodes(&self) -> u32 {
        self.feeder.poses()
    }

    fn labels(&self) -> u32 {
        self.feeder.actions()
    }

    fn next(&self, node: u32, label: u32) -> Result<u32, Refusal> {
        self.feeder.follow(node, label)
    }

    fn is_goal(&self, node: u32) -> Result<bool, Refusal> {
        if node >= self.feeder.poses() {
            return Err(Refusal::NoPose);
        }
        Ok(node == self.goal)
    }
}
