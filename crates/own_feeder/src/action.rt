// What a dial can do, and the number that names each of its actions.
ghost use Rattle.own_feeder.specs.Action.{Decodes};

use refusals::Refusal;

// Turn the ring by one position, or kick the part off position 0.
#[derive(Clone, Copy, Debug, PartialEq, Eq)]
pub enum Action {
    Turn,
    Kick,
}

impl Action {
    // How many actions there are.
    pub const COUNT: u32 = 2;
}

impl TryFrom<u32> for Action {
    type Error = Refusal;

    ghost try_from_gives = { Decodes };

    // The action with that number; refuses a number that no action has.
    fn try_from(number: u32) -> Result<Self, Refusal> {
        match number {
            0 => Ok(Action::Turn),
            1 => Ok(Action::Kick),
            _ => Err(Refusal::NoAction),
        }
    }
}
