// How a customer writes a feeder: say what it does (specs/), keep its rule in the struct, show the trait; all else comes with it.
#![tactic(auto)]

use dial::Dial;
use feeders::{every, image, same_feeder};
use std::io;

mod action;
mod dial;

// Lists of actions for a dial: the last asks for an action that no dial has.
const LISTS: [&[u8]; 5] = [&[], &[1], &[1, 0, 1], &[1, 0, 0, 0, 1, 0, 0, 0, 1], &[2]];

// Prints where a list of actions brings a set of poses of the dial.
fn show(rt: &impl Print, dial: &Dial, set: u32, list: &[u8]) -> io::Result<()> {
    match image(dial, set, list) {
        Ok(end) => println!(rt; "{list:?} brings {set:04b} to {end:04b}"),
        Err(refusal) => println!(rt; "{list:?} is refused by {}", u8::from(refusal)),
    }
}

fn main(rt: HostRuntime) -> io::Result<()> {
    let dial = Dial::new(4).unwrap();
    for list in LISTS {
        show(&rt, &dial, every(4), list)?;
    }
    show(&rt, &dial, 0b10000, &[0])?;
    let same = same_feeder(&dial, &dial);
    println!(rt; "the dial is the same feeder as itself: {same}")
}
