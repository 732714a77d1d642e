// Two feeders that are shown with their plans: a gate row, and one on which the rule gets stuck.
use crate::dice::Dice;
use feeders::{Feeder, every, image};
use planning::plan_pairs;
use plans::Plan;
use std::io;

// A table of two actions, from the two poses that follow each pose: under action 0 and under action 1.
fn table_of(moves: &[[u8; 2]]) -> [u8; 32] {
    let mut table = [0; 32];
    let (rows, _) = table.as_chunks_mut();
    for (row, &[first, second]) in rows.iter_mut().zip(moves) {
        *row = [first, second, 0, 0];
    }
    table
}

// Prints the plan from the set with all actions, or the number of the refusal.
fn show_plan(rt: &impl Print, dice: &Dice, set: u32) -> io::Result<()> {
    let mut plan = Plan::new();
    match plan_pairs(dice, every(dice.actions()), set, &mut plan) {
        Ok(()) => {
            print!(rt; "plan:")?;
            for action in plan.as_slice() {
                print!(rt; " {action}")?;
            }
            println!(rt; "")
        }
        Err(refusal) => println!(rt; "refused by {}", u8::from(refusal)),
    }
}

// Prints where each action brings each pose.
fn show_moves(rt: &impl Print, dice: &Dice) -> io::Result<()> {
    for action in 0..dice.actions() {
        print!(rt; "action {action}:")?;
        for pose in 0..dice.poses() {
            if let Ok(next) = dice.follow(pose, action) {
                print!(rt; " {pose} to {next}")?;
            }
        }
        println!(rt; "")?;
    }
    Ok(())
}

// Prints where the list brings the set.
// The lines that the example of a customer's own feeder prints too: that one stands by itself.
fn show_image(rt: &impl Print, dice: &Dice, set: u32, list: &[u8]) -> io::Result<()> {
    match image(dice, set, list) {
        Ok(end) => println!(rt; "{list:?} brings {set:04b} to {end:04b}"),
        Err(refusal) => println!(rt; "{list:?} is refused by {}", u8::from(refusal)),
    }
}

// The gate row of three poses: action 0 turns them by one, action 1 lets pose 2 fall to pose 0.
pub fn show_gate_row(rt: &impl Print) -> io::Result<()> {
    let table = table_of(&[[1, 0], [2, 1], [0, 0]]);
    let dice = Dice::new(3, 2, table).unwrap();
    show_moves(rt, &dice)?;
    show_plan(rt, &dice, 0b111)
}

// From a set that is no image of all poses the rule may get stuck although a list exists:
// it joins 0 and 1 by action 0, which brings 2 to 3, and nothing joins 0 and 3; action 1 would have joined all three.
pub fn show_stuck(rt: &impl Print) -> io::Result<()> {
    let table = table_of(&[[0, 1], [0, 1], [3, 1], [3, 3]]);
    let dice = Dice::new(4, 2, table).unwrap();
    show_moves(rt, &dice)?;
    println!(rt; "set: 0111")?;
    show_plan(rt, &dice, 0b111)?;
    show_image(rt, &dice, 0b111, &[0])?;
    show_image(rt, &dice, 0b111, &[1])
}
