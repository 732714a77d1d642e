// The motion of a squeeze table: the step that an angle lies in, and the answers of a feeder.
ghost use Rattle.std.specs.Prelude.{◌≡◌, ℕ, ◌%◌};
ghost use Rattle.squeeze.specs.Held.{squeeze_of};
ghost use Rattle.squeeze.specs.Squeeze.{StepOf, step_of, squeeze_motion};
ghost use Rattle.squeeze.specs.Valid.{keeps, squeeze_valid};

use crate::table::SqueezeTable;
use feeders::Feeder;
use refusals::Refusal;

impl SqueezeTable {
    // The step that an angle, taken modulo the half turn, lies in: the last that does not begin above it.
    // An angle on the very edge of a step belongs to the step that begins there; one below every beginning, to the last.
    pub fn step_of(&self, angle: u32) -> u32
        ensures is { result ≡ step_of (squeeze_of self.now).steps (angle % (squeeze_of self.now).ticks) }
        ensures step { StepOf (squeeze_of self.now).steps (angle % (squeeze_of self.now).ticks) result }
        ensures only { (x i j : ℕ) → StepOf (squeeze_of self.now).steps x i → StepOf (squeeze_of self.now).steps x j → i ≡ j }
    {
        let x = angle % self.ticks;
        let steps = self.steps.as_slice();
        let begun = steps.partition_point(|step| step.begin <= x);
        begun.checked_sub(1).unwrap_or(steps.len() - 1) as u32
    }
}

impl Feeder for SqueezeTable {
    ghost motion = { λ t. squeeze_motion (squeeze_of t) };

    ghost valid = { λ t. squeeze_valid (squeeze_of t) (keeps t) };

    fn poses(&self) -> u32 {
        self.steps.len() as u32
    }

    fn actions(&self) -> u32 {
        self.turns.len() as u32
    }

    fn follow(&self, pose: u32, action: u32) -> Result<u32, Refusal> {
        let step = self.steps.get(pose as usize).ok_or(Refusal::NoPose)?;
        let turn = self.turns.get(action as usize).ok_or(Refusal::NoAction)?;
        Ok(self.step_of(step.rest + turn))
    }
}
