// The way from one pose to another.
ghost use Rattle.graphs.specs.PoseLaws.{PoseLaws};
ghost use Rattle.planning.specs.Aimed.{Aimed};

use crate::way::append_way;
use feeders::Feeder;
use grounds::{Distances, PoseGround};
use plans::{Plan, ROOM};
use refusals::Refusal;

// The way from the pose `from` to the pose `goal`, by permitted actions, is appended to the plan.
// Refuses an absent pose, then a goal to which no permitted actions lead, then a way for which the plan has no room; then the plan is as it was.
pub fn append_way_to<F: Feeder>(
    feeder: &F,
    permitted: u32,
    from: u32,
    goal: u32,
    plan: &mut Plan,
) -> Result<(), Refusal>
    ensures aimed { Aimed (F.Feeder.motion feeder.now) permitted from goal plan.old plan.new result }
    ensures laws { PoseLaws (F.Feeder.motion feeder.now) permitted }
{
    let ground = PoseGround::new(feeder, goal)?;
    let distances = Distances::measure(&ground, permitted);
    let away = distances.distance(from)?.ok_or(Refusal::CannotEndThere)?;
    if plan.len() + away as usize > ROOM {
        return Err(Refusal::PlanTooLong);
    }
    append_way(&distances, from, plan);
    Ok(())
}
