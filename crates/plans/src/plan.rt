// A plan as it is held: a list of up to 16,384 actions, in place.
use lists::Bounded;

mod change;
mod look;

// How many actions a plan has room for.
pub const ROOM: usize = 16384;

#[derive(Clone, Copy)]
pub struct Plan {
    actions: Bounded<u8, ROOM>,
}
