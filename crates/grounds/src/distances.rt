// The distances of all nodes of a ground.
ghost use Rattle.std.specs.Prelude.{◌≡◌, ◌<◌, IsTrue};
ghost use Rattle.graphs.specs.Certificate.{passes};
ghost use Rattle.grounds.specs.Reach.{Away, StepsTo, distance_told};

use crate::entries::entry;
use crate::ground::Ground;
use crate::levels::Levels;
use refusals::Refusal;

// The distances of all nodes to the nearest goal, by permitted labels.
#[derive(Drop)]
pub struct Distances<'g, G: Ground> {
    levels: Levels<'g, G>,
    pub ghost passes: { IsTrue (passes (G.graph levels.ground.now) levels.permitted levels.table) },
}

impl<'g, G: Ground> Distances<'g, G> {
    // Measures the distances of the ground's nodes.
    pub fn measure(ground: &'g G, permitted: u32) -> Self
        ensures at { result.levels.ground.now ≡ ground.now }
        ensures by { result.levels.permitted ≡ permitted }
    {
        let mut levels = Levels::new(ground, permitted);
        levels.fill();
        Distances { levels }
    }

    // The ground that was measured.
    pub fn ground(&self) -> &'g G
        ensures { result ≡ self.now.levels.ground }
    {
        self.levels.ground
    }

    // The distance of the node, or none where no permitted labels lead to a goal; refuses an absent node.
    pub fn distance(&self, node: u32) -> Result<Option<u32>, Refusal>
        ensures told { result ≡ distance_told self.now.levels.table (G.Ground.graph self.now.levels.ground.now).nodes node }
        ensures away { Away (G.Ground.graph self.now.levels.ground.now) self.now.levels.permitted node result }
    {
        if node >= self.levels.ground.nodes() {
            return Err(Refusal::NoPose);
        }
        Ok(entry(&self.levels.table, node))
    }

    // The first label of the way from the node to the nearest goal, and the node that follows; none at a goal, and where no goal is reached.
    pub fn first_label(&self, node: u32) -> Option<(u32, u32)>
        ensures { StepsTo (G.Ground.graph self.now.levels.ground.now) self.now.levels.permitted node result }
    {
        self.levels.steps().first_label(node)
    }
}
