// A plan from all poses of a feeder.
ghost use Rattle.std.specs.Prelude.{◌≡◌, ℕ, ◌↔◌, List, Err};
ghost use Rattle.graphs.specs.PairRule.{Orients, every as every_pose};
ghost use Rattle.planning.specs.Planned.{Planned};
ghost use Rattle.refusals.specs.declared.Refusal.TheVariants.{CannotOrient};

use crate::rule::plan_pairs;
use feeders::{Feeder, every};
use plans::Plan;
use refusals::Refusal;

// The plan becomes the one that the pair rule gives from all poses with the permitted actions.
// "Cannot be oriented" is answered exactly when no list of permitted actions, of any length, brings all poses to one.
pub fn plan_every<F: Feeder>(feeder: &F, permitted: u32, plan: &mut Plan) -> Result<(), Refusal>
    ensures planned { Planned (F.Feeder.motion feeder.now) permitted (every_pose (F.Feeder.motion feeder.now)) plan.old plan.new result }
    ensures exact { (result ≡ Err CannotOrient) ↔ ((w : List ℕ) → Orients (F.Feeder.motion feeder.now) permitted (every_pose (F.Feeder.motion feeder.now)) w → ⊥) }
{
    plan_pairs(feeder, permitted, every(feeder.poses()), plan)
}
