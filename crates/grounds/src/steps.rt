// Steps on a ground that lead nearer to its goals, by a table of distances.
ghost use Rattle.std.specs.Prelude.{◌≡◌, ◌<◌, ◌↔◌, IsTrue};
ghost use Rattle.feeders.specs.Sets.{has};
ghost use Rattle.graphs.specs.Certificate.{Passes, none};
ghost use Rattle.grounds.specs.Level.{LeadsTo, LabelFound};
ghost use Rattle.grounds.specs.Reach.{StepsTo};

use crate::entries::{NODES, entry, tells};
use crate::ground::Ground;

// What a step is found by: the ground, the permitted labels, and the distances.
#[derive(Drop)]
pub(crate) struct Steps<'a, G: Ground> {
    pub(crate) ground: &'a G,
    pub(crate) permitted: u32,
    pub(crate) table: &'a [u16; NODES],
}

// Whether the label belongs to the set. Not `feeders::has`: each step would pay for its test that the label is below 32.
fn permits(permitted: u32, label: u32) -> bool
    requires { label < 32 }
    ensures { result ≡ has permitted label }
{
    permitted >> label & 1 == 1
}

impl<'a, G: Ground> Steps<'a, G> {
    // The node that follows.
    fn next(&self, node: u32, label: u32) -> u32
        requires { (node < (G.Ground.graph self.now.ground.now).nodes) × (label < (G.Ground.graph self.now.ground.now).labels) }
        ensures { result ≡ (G.Ground.graph self.now.ground.now).next node label }
    {
        self.ground.next(node, label).unwrap()
    }

    // Whether the label is permitted and leads from the node to one at this distance.
    fn leads_to(&self, node: u32, label: u32, away: u32) -> bool
        requires inside { (node < (G.Ground.graph self.now.ground.now).nodes) × (label < (G.Ground.graph self.now.ground.now).labels) }
        requires some { away < none }
        ensures { IsTrue result ↔ LeadsTo (G.Ground.graph self.now.ground.now) self.now.permitted self.now.table.now node away label }
    {
        permits(self.permitted, label) && tells(self.table, self.next(node, label), away)
    }

    // The lowest permitted label from the node to one at this distance.
    pub(crate) fn label_to(&self, node: u32, away: u32) -> Option<u32>
        requires inside { node < (G.Ground.graph self.now.ground.now).nodes }
        requires some { away < none }
        ensures { LabelFound (G.Ground.graph self.now.ground.now) self.now.permitted self.now.table.now node away result }
    {
        (0..self.ground.labels()).find(|label| self.leads_to(node, *label, away))
    }

    // The first label of the way from the node to the nearest goal, and the node that follows; none at a goal, and where no goal is reached.
    pub(crate) fn first_label(&self, node: u32) -> Option<(u32, u32)>
        ensures { Passes (G.Ground.graph self.now.ground.now) self.now.permitted self.now.table.now → StepsTo (G.Ground.graph self.now.ground.now) self.now.permitted node result }
    {
        if node >= self.ground.nodes() {
            return None;
        }
        let away = entry(self.table, node)?;
        let label = self.label_to(node, away.checked_sub(1)?)?;
        Some((label, self.next(node, label)))
    }
}
