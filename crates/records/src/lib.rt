// Plan records: one record for each plan.
#![tactic(auto)]

mod printing;
mod reading;
mod writing;

// What a record tells: the numbers of poses and actions of the feeder, the end pose, and the actions of the plan.
#[derive(Clone, Copy, PartialEq, Eq, Debug)]
pub struct Record<'a> {
    pub poses: u32,
    pub actions: u32,
    pub end: u32,
    pub list: &'a [u8],
}

// The byte in front of a record's fields.
const KIND: u8 = 4;

// The byte after the last action. It is no action: those are below 32.
const END: u8 = 32;

// The most poses, and the most actions, that a feeder has.
// Each format names its own limits: that all of them are 32 follows from no rule of formats.
const MOST: u32 = 32;

// The most actions that a plan has.
// Written again here: this crate does not stand on the plan store.
const ROOM: usize = 16384;

// The place of the first action: kind, poses, actions and end pose stand before it.
const FIRST: usize = 4;
