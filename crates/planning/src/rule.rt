// The planner.
ghost use Rattle.graphs.specs.PairRule.{PairLaws};
ghost use Rattle.planning.specs.Planned.{Planned, Exact};

use crate::nearest::nearest;
use crate::way::append_way;
use feeders::{Feeder, image, is_within};
use grounds::{Distances, PairGround};
use plans::Plan;
use refusals::Refusal;

// The plan becomes the one that the pair rule gives from the set with the permitted actions.
// Refuses a set with an absent pose, and a set that is empty or from which the rule gets stuck; then the plan is as it was.
// The feeder and the set are handed over one by one: a struct of the two would be made for one call.
pub fn plan_pairs<F: Feeder>(
    feeder: &F,
    permitted: u32,
    set: u32,
    plan: &mut Plan,
) -> Result<(), Refusal>
    ensures planned { Planned (F.Feeder.motion feeder.now) permitted set plan.old plan.new result }
    ensures exact { Exact (F.Feeder.motion feeder.now) permitted set result }
    ensures laws { PairLaws (F.Feeder.motion feeder.now) permitted }
{
    if !is_within(set, feeder.poses()) {
        return Err(Refusal::NoPose);
    }
    if set == 0 {
        return Err(Refusal::CannotOrient);
    }
    let ground = PairGround::new(feeder);
    let distances = Distances::measure(&ground, permitted);
    let mut made = Plan::new();
    let mut here = set;
    while here.count_ones() >= 2 {
        let pair = nearest(&distances, here).ok_or(Refusal::CannotOrient)?;
        let node = ground.pair_node(pair.p, pair.q).unwrap();
        let before = made.len();
        append_way(&distances, node, &mut made);
        here = image(feeder, here, &made.as_slice()[before..]).unwrap();
    }
    *plan = made;
    Ok(())
}
