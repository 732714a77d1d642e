// The way from a node to the nearest goal, as actions of a plan.
ghost use Rattle.planning.specs.Walk.{Fits, Extends};
ghost use Rattle.plans.specs.Held.{list_of};

use grounds::{Distances, Ground};
use plans::Plan;

// Appends the way from the node, for which the plan has room.
pub(crate) fn append_way<G: Ground>(distances: &Distances<G>, node: u32, plan: &mut Plan)
    requires { Fits (G.Ground.graph distances.now.levels.ground.now) distances.now.levels.permitted node (list_of plan.old) }
    ensures { Extends (G.Ground.graph distances.now.levels.ground.now) distances.now.levels.permitted node (list_of plan.old) (list_of plan.new) }
{
    let mut here = node;
    while let Some((label, next)) = distances.first_label(here) {
        plan.push(label as u8).unwrap();
        here = next;
    }
}
