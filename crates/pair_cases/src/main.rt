// The planner on random small feeders, beside a search over sets of poses that knows nothing of pairs.
#![tactic(auto)]

use std::io;

mod dice;
mod random;
mod search;
mod shown;
mod tally;
mod trial;

fn main(rt: HostRuntime) -> io::Result<()> {
    trial::show_random(&rt)?;
    shown::show_gate_row(&rt)?;
    shown::show_stuck(&rt)
}
