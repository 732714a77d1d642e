// The trials: random feeders, planned for from all poses and held to the search.
use crate::dice::Dice;
use crate::random::Random;
use crate::search::Search;
use crate::tally::Tally;
use feeders::{Feeder, every, has, image};
use planning::plan_pairs;
use plans::Plan;
use std::io;

// How many random feeders for each number of poses and of actions.
const FEEDERS: u32 = 40;

// A feeder, and the actions that a plan for it may have.
#[derive(Drop)]
struct Trial {
    dice: Dice,
    permitted: u32,
}

impl Trial {
    // A random feeder with so many poses and actions, or none where there is no such feeder.
    fn new(random: &mut Random, poses: u32, actions: u32, turn: u32) -> Option<Trial> {
        let table = random.table();
        let permitted = random.permitted(turn);
        let dice = Dice::new(poses, actions, table)?;
        Some(Trial { dice, permitted })
    }

    // All poses of the feeder.
    fn all(&self) -> u32 {
        every(self.dice.poses())
    }

    // Plans from all poses, and holds the plan to the search.
    fn run(&self) -> Tally {
        let mut plan = Plan::new();
        let oriented = plan_pairs(&self.dice, self.permitted, self.all(), &mut plan).is_ok();
        let searched = Search::new(&self.dice, self.permitted, self.all()).orients();
        Tally {
            feeders: 1,
            oriented: u32::from(oriented),
            searched: u32::from(searched),
            agree: u32::from(oriented == searched),
            right: u32::from(oriented && self.is_right(plan.as_slice())),
        }
    }

    // Whether the list has permitted actions alone, is no longer than (n - 1) times n (n - 1) / 2, and brings all poses to one.
    fn is_right(&self, list: &[u8]) -> bool {
        let n = self.dice.poses() as usize;
        list.iter()
            .all(|action| has(self.permitted, u32::from(*action)))
            && list.len() <= (n - 1) * n * (n - 1) / 2
            && image(&self.dice, self.all(), list).is_ok_and(|end| end.count_ones() == 1)
    }
}

// Tries random feeders with so many poses and actions.
fn try_feeders(random: &mut Random, poses: u32, actions: u32) -> Tally {
    let mut tally = Tally::default();
    for turn in 0..FEEDERS {
        if let Some(trial) = Trial::new(random, poses, actions, turn) {
            tally += trial.run();
        }
    }
    tally
}

// Tries feeders of up to 6 poses and 4 actions, and prints what came of them.
pub fn show_random(rt: &impl Print) -> io::Result<()> {
    let mut random = Random::new(20);
    let mut total = Tally::default();
    for poses in 1..=6u32 {
        for actions in 1..=4u32 {
            let tally = try_feeders(&mut random, poses, actions);
            println!(rt; "{poses} {actions}: {tally}")?;
            total += tally;
        }
    }
    println!(rt; "total: {total}")
}
