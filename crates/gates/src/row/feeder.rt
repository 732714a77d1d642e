// A gate row as a feeder, and its gates.
ghost use Rattle.std.specs.Prelude.{◌≡◌, ◌<◌, ◌≤◌};
ghost use Rattle.feeders.specs.Sets.{has};
ghost use Rattle.gates.specs.Gates.{gate_motion, turned};
ghost use Rattle.gates.specs.Held.{gate_at, gates_of};
ghost use Rattle.gates.specs.Valid.{row_valid};

use crate::gate::Gate;
use crate::row::GateRow;
use feeders::Feeder;
use refusals::Refusal;

// Whether the pose belongs to the set. Not `feeders::has`: each move would pay for its test that the pose is below 32.
fn belongs(set: u32, pose: u32) -> bool
    requires { pose < 32 }
    ensures { result ≡ has set pose }
{
    set >> pose & 1 == 1
}

// Where the gate brings one of `n` poses.
fn brought(n: u32, gate: Gate, pose: u32) -> u32
    requires { (pose < n) × ((n ≤ 32) × (gate.turn < n)) }
    ensures { result ≡ turned n gate pose }
{
    if belongs(gate.set, pose) {
        (pose + gate.turn) % n
    } else {
        pose
    }
}

impl GateRow {
    // The gate of an action; refuses an absent action.
    pub fn gate(&self, action: u32) -> Result<Gate, Refusal>
        ensures { result ≡ gate_at (gates_of self.now) action }
    {
        self.gates.get(action as usize).ok_or(Refusal::NoAction)
    }
}

impl Feeder for GateRow {
    ghost motion = { λ t. gate_motion (gates_of t) };

    ghost valid = { λ t. row_valid t };

    fn poses(&self) -> u32 {
        self.poses
    }

    fn actions(&self) -> u32 {
        self.gates.len() as u32
    }

    fn follow(&self, pose: u32, action: u32) -> Result<u32, Refusal> {
        if pose >= self.poses {
            return Err(Refusal::NoPose);
        }
        Ok(brought(self.poses, self.gate(action)?, pose))
    }
}
