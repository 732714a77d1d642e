// A feeder of a customer's own: a dial with a ring of positions and a kicker at position 0.
ghost use Rattle.std.specs.Prelude.{◌≡◌, ◌≤◌, MatchOption};
ghost use Rattle.own_feeder.specs.Dial.{Beyond, dial_motion, dial_valid};

use crate::action::Action;
use feeders::Feeder;
use refusals::Refusal;

#[derive(Clone, Copy)]
pub struct Dial {
    positions: u32,
    ghost some: { 1 ≤ positions },
    ghost few: { positions ≤ 32 },
}

impl Dial {
    // A dial of `positions` positions, or none where a feeder cannot have so many.
    pub fn new(positions: u32) -> Option<Dial>
        ensures { MatchOption result (Beyond positions) (λ d. d.positions ≡ positions) }
    {
        if (1..=32).contains(&positions) {
            Some(Dial { positions })
        } else {
            None
        }
    }
}

impl Feeder for Dial {
    ghost motion = { λ d. dial_motion d.positions };

    ghost valid = { λ d. dial_valid d.positions d.some d.few };

    fn poses(&self) -> u32 {
        self.positions
    }

    fn actions(&self) -> u32 {
        Action::COUNT
    }

    fn follow(&self, pose: u32, action: u32) -> Result<u32, Refusal> {
        let n = self.positions;
        if pose >= n {
            return Err(Refusal::NoPose);
        }
        Ok(match Action::try_from(action)? {
            Action::Turn => (pose + 1) % n,
            Action::Kick if pose == 0 => 1 % n,
            Action::Kick => pose,
        })
    }
}
