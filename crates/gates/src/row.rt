// A gate row as it is held: how many poses, and the gate of each action.
ghost use Rattle.gates.specs.Gates.{Keeps};
ghost use Rattle.lists.specs.Held.{list_of};

use crate::gate::Gate;
use lists::Bounded;

mod feeder;
mod fill;

pub use fill::KIND;

#[derive(Clone, Copy)]
pub struct GateRow {
    poses: u32,
    gates: Bounded<Gate, 32>,
    ghost keeps: { Keeps (record { poses = poses; gates = list_of gates }) },
}
