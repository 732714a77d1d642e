// A feeder made of random numbers: an entry of its table for each pose and action.
ghost use Rattle.std.specs.Prelude.{◌≡◌, ◌≤◌, MatchOption};
ghost use Rattle.pair_cases.specs.Dice.{Beyond, dice_motion, dice_valid};

use feeders::Feeder;
use refusals::Refusal;

#[derive(Clone, Copy)]
pub struct Dice {
    poses: u32,
    actions: u32,
    table: [u8; 32],
    ghost some: { 1 ≤ poses },
    ghost few: { poses ≤ 6 },
    ghost can: { 1 ≤ actions },
    ghost short: { actions ≤ 4 },
}

impl Dice {
    // A feeder with so many poses and actions, or none where the table has no room for them.
    pub fn new(poses: u32, actions: u32, table: [u8; 32]) -> Option<Dice>
        ensures { MatchOption result (Beyond poses actions) (λ d. (d.poses ≡ poses) × (d.actions ≡ actions) × (d.table ≡ table)) }
    {
        if (1..=6).contains(&poses) && (1..=4).contains(&actions) {
            Some(Dice {
                poses,
                actions,
                table,
            })
        } else {
            None
        }
    }
}

impl Feeder for Dice {
    ghost motion = { λ d. dice_motion d.poses d.actions d.table };

    ghost valid = { λ d. dice_valid d.poses d.actions d.table d.some d.few d.can d.short };

    fn poses(&self) -> u32 {
        self.poses
    }

    fn actions(&self) -> u32 {
        self.actions
    }

    fn follow(&self, pose: u32, action: u32) -> Result<u32, Refusal> {
        // Tested by hand: two questions in two lines each, which a shared function would only name again.
        if pose >= self.poses {
            return Err(Refusal::NoPose);
        }
        if action >= self.actions {
            return Err(Refusal::NoAction);
        }
        // One flat array, four entries for a pose: so the motion in specs/ reads it.
        let place = pose * 4 + action;
        Ok(u32::from(self.table[place as usize]) % self.poses)
    }
}
