// The job: a feeder, the permitted actions, the possible poses and perhaps a plan; and the calls that are made on it.
#![tactic(auto)]

mod calls;
mod checks;
mod job;
mod sets;

pub use calls::run;
pub use job::Job;
