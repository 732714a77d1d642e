// Gate rows: for each action a set of poses and a turn.
#![tactic(auto)]

mod fields;
mod gate;
mod row;

pub use gate::Gate;
pub use row::{GateRow, KIND};

#[cfg(test)]
mod tests;
