// The rows of a trace: what a list of actions does to a set of poses, action by action.
#![tactic(auto)]

mod row;
mod trace;

pub use trace::write_trace;
