// The search for distances, level by level.
ghost use Rattle.std.specs.Prelude.{◌≡◌, ◌<◌};
ghost use Rattle.graphs.specs.Certificate.{Passes, none};
ghost use Rattle.grounds.specs.Level.{Level, NextIf, Swept, first_entry};

use crate::entries::{NODES, NONE, entry};
use crate::ground::Ground;
use crate::steps::Steps;

// The distances found so far, by permitted labels: first those of the goals, then level by level those of the other nodes.
#[derive(Drop)]
pub(crate) struct Levels<'g, G: Ground> {
    pub(crate) ground: &'g G,
    pub(crate) permitted: u32,
    pub(crate) table: [u16; NODES],
}

// What the table first has for the node: 0 for a goal, and else no distance.
fn first_entry<G: Ground>(ground: &G, node: u32) -> u16
    ensures { result ≡ first_entry (G.Ground.graph ground.now) node }
{
    match ground.is_goal(node) {
        Ok(true) => 0,
        _ => NONE,
    }
}

impl<'g, G: Ground> Levels<'g, G> {
    // No node has a distance yet.
    pub(crate) fn new(ground: &'g G, permitted: u32) -> Self
        ensures at { result.ground.now ≡ ground.now }
        ensures by { result.permitted ≡ permitted }
    {
        Levels {
            ground,
            permitted,
            table: [NONE; NODES],
        }
    }

    // Finds the distances of all nodes, in place: to hand the table from function to function costs more than to fill it.
    pub(crate) fn fill(&mut self)
        ensures at { self.new.ground ≡ self.old.ground }
        ensures by { self.new.permitted ≡ self.old.permitted }
        ensures passes { Passes (G.Ground.graph self.new.ground.now) self.new.permitted self.new.table }
    {
        self.mark_goals();
        let mut level = 0;
        while self.sweep(level) {
            level += 1;
        }
    }

    // Only the goals have a distance, which is 0.
    fn mark_goals(&mut self)
        ensures at { self.new.ground ≡ self.old.ground }
        ensures by { self.new.permitted ≡ self.old.permitted }
        ensures level { Level (G.Ground.graph self.new.ground.now) self.new.permitted 0 self.new.table }
    {
        // Only the ground's own nodes are asked: to ask at every place of the table costs more than the search itself.
        for node in 0..self.ground.nodes() {
            self.table[node as usize] = first_entry(self.ground, node);
        }
    }

    // The steps by the distances found so far.
    pub(crate) fn steps(&self) -> Steps<'_, G>
        ensures at { result.ground.now ≡ self.now.ground.now }
        ensures by { result.permitted ≡ self.now.permitted }
        ensures table { result.table.now ≡ self.now.table }
    {
        Steps {
            ground: self.ground,
            permitted: self.permitted,
            table: &self.table,
        }
    }

    // Whether the node has no distance yet and is one label farther than `level`.
    fn is_next(&self, node: u32, level: u32) -> bool
        requires inside { node < (G.Ground.graph self.now.ground.now).nodes }
        requires some { level < none }
        ensures { NextIf (G.Ground.graph self.now.ground.now) self.now.permitted self.now.table level node result }
    {
        entry(&self.table, node).is_none() && self.steps().label_to(node, level).is_some()
    }

    // Gives the nodes one label farther than `level` their distance, and says whether there is one.
    fn sweep(&mut self, level: u32) -> bool
        requires { Level (G.Ground.graph self.old.ground.now) self.old.permitted level self.old.table }
        ensures at { self.new.ground ≡ self.old.ground }
        ensures by { self.new.permitted ≡ self.old.permitted }
        ensures swept { Swept (G.Ground.graph self.new.ground.now) self.new.permitted level result self.new.table }
    {
        let mut any = false;
        // By numbers: each turn reads the whole table before it writes one entry.
        for node in 0..self.ground.nodes() {
            if self.is_next(node, level) {
                self.table[node as usize] = (level + 1) as u16;
                any = true;
            }
        }
        any
    }
}
