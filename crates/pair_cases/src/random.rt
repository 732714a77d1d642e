// Random numbers, and what the trials make of them: tables and sets of permitted actions.
use feeders::every;
use std::array;

// A row of random numbers, each of which follows from the one before.
#[derive(Drop)]
pub struct Random {
    state: u32,
}

impl Random {
    // The row that begins from a seed.
    pub fn new(seed: u32) -> Self {
        Random { state: seed }
    }

    // The next random number: the third byte of the state, which goes on.
    fn byte(&mut self) -> u8 {
        self.state = self.state.wrapping_mul(1664525).wrapping_add(1013904223);
        self.state.to_le_bytes()[2]
    }

    // A table of the next 32 numbers.
    pub fn table(&mut self) -> [u8; 32] {
        array::from_fn(|_| self.byte())
    }

    // Every third set permits all actions, as far as they go; any other is random and may be empty.
    pub fn permitted(&mut self, turn: u32) -> u32 {
        if turn % 3 == 0 {
            every(4)
        } else {
            u32::from(self.byte()) % 16
        }
    }
}
