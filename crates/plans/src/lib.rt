// The plan store: a list of up to 16,384 actions, held in place.
#![tactic(auto)]

mod plan;

pub use plan::{Plan, ROOM};

#[cfg(test)]
mod tests;
