// A job as it is held.
use feeders::Feeder;
use plans::Plan;

mod handle;
mod hold;
mod perform;
mod tell;

// Clauses hand over the motion of the feeder: a definition of specs/ has no bound by which to find it.
// The job owns its feeder until it is finished. No call on it allocates, so no answer depends on memory.
#[derive(Drop)]
pub struct Job<F: Feeder> {
    feeder: F,
    // the set of the permitted actions
    allowed: u32,
    // the set of the possible poses
    poses: u32,
    plan: Plan,
    // Whether the plan counts. A flag beside the plan, and no Option: None and Some of 16 KB are written whole.
    held: bool,
}
