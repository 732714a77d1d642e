// A tray as a feeder: actions 0 to 3 tilt it north, east, south and west.
ghost use Rattle.trays.specs.Held.{grid_of};
ghost use Rattle.trays.specs.Tray.{tray_motion};
ghost use Rattle.trays.specs.Valid.{held_valid};

use crate::direction::Direction;
use crate::tray::Tray;
use feeders::Feeder;
use refusals::Refusal;

// One for each direction.
const ACTIONS: u32 = 4;

impl Feeder for Tray {
    ghost motion = { λ t. tray_motion (grid_of t) };

    ghost valid = { λ t. held_valid t };

    fn poses(&self) -> u32 {
        self.free
    }

    fn actions(&self) -> u32 {
        ACTIONS
    }

    fn follow(&self, pose: u32, action: u32) -> Result<u32, Refusal> {
        // Tested here too: an absent pose is refused before an absent action.
        if pose >= self.poses() {
            return Err(Refusal::NoPose);
        }
        self.tilt(pose, Direction::try_from(action)?)
    }
}
