// A squeeze table, with the rule that every one of them keeps.
ghost use Rattle.lists.specs.Held.{list_of};
ghost use Rattle.squeeze.specs.Squeeze.{Keeps, keeps-once};

use crate::step::Step;
use lists::Bounded;

// The half turn has `ticks` ticks, cut into steps. No step rests where the next begins or beyond;
// the last may rest past the half turn, below the first beginning of the next.
#[derive(Clone, Copy)]
pub struct SqueezeTable {
    pub(crate) ticks: u32,
    pub(crate) steps: Bounded<Step, 32>,
    pub(crate) turns: Bounded<u32, 32>,
    ghost keeps: { Keeps (record { ticks = ticks; steps = list_of steps; turns = list_of turns }) } by { keeps-once _ },
}
