// The brute force: a search over sets of poses that knows nothing of pairs.
use crate::dice::Dice;
use feeders::{has, image};

// A feeder, its permitted actions, and which sets of its poses they have been found to make.
#[derive(Drop)]
pub struct Search<'a> {
    dice: &'a Dice,
    permitted: u32,
    reached: [bool; 64],
}

impl<'a> Search<'a> {
    // A search that has reached the set from which it starts.
    pub fn new(dice: &'a Dice, permitted: u32, from: u32) -> Self {
        let mut reached = [false; 64];
        reached[(from % 64) as usize] = true;
        Search {
            dice,
            permitted,
            reached,
        }
    }

    // Marks what each permitted action makes of the set.
    fn mark(&mut self, set: u32) {
        for action in 0..4u8 {
            if has(self.permitted, u32::from(action))
                && let Ok(next) = image(self.dice, set, &[action])
            {
                self.reached[(next % 64) as usize] = true;
            }
        }
    }

    // Marks what each permitted action makes of each set that is marked; whether anything is new.
    fn spread(&mut self) -> bool {
        let before = self.reached;

        // Indices by hand: marking writes the array that is gone through.
        for set in 0..64u32 {
            if self.reached[set as usize] {
                self.mark(set);
            }
        }
        self.reached != before
    }

    // Whether some list of permitted actions brings the set to one pose: all sets that can be reached are looked at.
    pub fn orients(mut self) -> bool {
        // Each round but the last marks one more of the 64 sets.
        for _ in 0..64 {
            if !self.spread() {
                break;
            }
        }
        self.reached
            .iter()
            .enumerate()
            .any(|(set, marked)| *marked && set.count_ones() == 1)
    }
}
