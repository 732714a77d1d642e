// The four ways to tilt a tray.
ghost use Rattle.std.specs.Prelude.{◌≡◌};
ghost use Rattle.trays.specs.Directions.{Tilting, tilt_of};

use refusals::Refusal;

// The discriminant is the number of the action.
#[derive(Clone, Copy, PartialEq, Eq, Debug)]
pub enum Direction {
    North = 0,
    East = 1,
    South = 2,
    West = 3,
}

// The action that tilts that way.
impl From<Direction> for u32 {
    ghost from_gives = { λ direction action. action ≡ tilt_of direction };

    fn from(direction: Direction) -> u32 {
        direction as u32
    }
}

// The direction of an action; refuses an absent action.
impl TryFrom<u32> for Direction {
    type Error = Refusal;

    ghost try_from_gives = { Tilting };

    fn try_from(action: u32) -> Result<Direction, Refusal> {
        match action {
            0 => Ok(Direction::North),
            1 => Ok(Direction::East),
            2 => Ok(Direction::South),
            3 => Ok(Direction::West),
            _ => Err(Refusal::NoAction),
        }
    }
}
