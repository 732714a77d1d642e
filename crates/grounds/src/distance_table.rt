// The distances of all nodes of a ground, apart from the ground: they can outlive it.
ghost use Rattle.std.specs.Prelude.{◌≡◌};
ghost use Rattle.graphs.specs.Certificate.{Passes};
ghost use Rattle.grounds.specs.Reach.{StepsTo, distance_told};

use crate::entries::{NODES, entry};
use crate::ground::Ground;
use crate::levels::Levels;
use crate::steps::Steps;
use refusals::Refusal;

// The distance of every node of a ground.
#[derive(Drop)]
pub struct DistanceTable {
    table: [u16; NODES],
    nodes: u32,
}

impl DistanceTable {
    // The distance of the node, or none; refuses an absent node.
    pub fn distance(&self, node: u32) -> Result<Option<u32>, Refusal>
        ensures { result ≡ distance_told self.now.table self.now.nodes node }
    {
        if node >= self.nodes {
            return Err(Refusal::NoPose);
        }
        Ok(entry(&self.table, node))
    }
}

// The distances to the nearest goal by permitted labels.
pub fn measure<G: Ground>(ground: &G, permitted: u32) -> DistanceTable
    ensures passes { Passes (G.Ground.graph ground.now) permitted result.table }
    ensures count { result.nodes ≡ (G.Ground.graph ground.now).nodes }
{
    let mut levels = Levels::new(ground, permitted);
    levels.fill();
    DistanceTable {
        table: levels.table,
        nodes: ground.nodes(),
    }
}

// The first label of the way from the node to the nearest goal, and the node that follows; none at a goal, and where no goal is reached.
pub fn first_label<G: Ground>(
    ground: &G,
    permitted: u32,
    distances: &DistanceTable,
    node: u32,
) -> Option<(u32, u32)>
    ensures { Passes (G.Ground.graph ground.now) permitted distances.now.table → StepsTo (G.Ground.graph ground.now) permitted node result }
{
    let steps = Steps {
        ground,
        permitted,
        table: &distances.table,
    };
    steps.first_label(node)
}
