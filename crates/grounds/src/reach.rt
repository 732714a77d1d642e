// The search for the nearest goal: how far it is, and the first label of the way there.
ghost use Rattle.graphs.specs.Laws.{DistanceLaws};
ghost use Rattle.grounds.specs.Reach.{Reaches};

use crate::distances::Distances;
use crate::ground::Ground;
use refusals::Refusal;

// What a search for the nearest goal finds.
#[derive(Clone, Copy, PartialEq, Eq, Debug)]
pub enum Reach {
    // The node is a goal.
    Goal,
    // The nearest goal is so many labels away, and the way there begins with this one.
    Step { distance: u32, label: u32 },
    // No list of permitted labels leads to a goal.
    Never,
}

// How far the nearest goal is, and the first label of the way there; refuses an absent node.
#[tactic(auto, using(crate::proofs::Searches::distance_laws))]
pub fn search<G: Ground>(ground: &G, permitted: u32, node: u32) -> Result<Reach, Refusal>
    ensures answer { Reaches (G.Ground.graph ground.now) permitted node result }
    ensures laws { DistanceLaws }
{
    if ground.is_goal(node)? {
        return Ok(Reach::Goal);
    }
    let distances = Distances::measure(ground, permitted);
    let Some(distance) = distances.distance(node)? else {
        return Ok(Reach::Never);
    };
    let (label, _) = distances.first_label(node).unwrap();
    Ok(Reach::Step { distance, label })
}
