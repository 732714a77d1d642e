// A list of calls, all on one new job.
ghost use Rattle.std.specs.Prelude.{◌≡◌, ℕ, ◌<◌, ◌≤◌, reverse, length, take, None, Ok, slice_index_or};
ghost use Rattle.histories.specs.Promise.{Determined};
ghost use Rattle.histories.specs.Rules.{Plans};
ghost use Rattle.jobs.specs.Reach.{Reached};
ghost use Rattle.jobs.specs.Run.{Placed};

use crate::job::Job;
use feeders::Feeder;
use histories::{Answer, Call};

// Makes a new job and on it, in their order, the calls that have a place in `answers`; each answer goes to the place of its call.
// No held plan leaves doubt and no refusal is false, however the calls are ordered, however many there are and whichever are refused.
pub fn run<F: Feeder>(feeder: F, calls: &[Call], answers: &mut [Answer]) -> Job<F>
    ensures same { result.feeder ≡ feeder }
    ensures each { (i : ℕ) → i < length calls.now → i < length answers.old → Placed (F.Feeder.motion feeder) calls.now answers.new i }
    ensures rest { (i : ℕ) → length calls.now ≤ i → slice_index_or answers.new i (Ok None) ≡ slice_index_or answers.old i (Ok None) }
    ensures reached { (plan : Plans) × Reached (F.Feeder.motion feeder) (reverse (take (length answers.old) calls.now)) plan result }
    ensures determined { Determined }
{
    let mut job = Job::new(feeder);
    let count = calls.len().min(answers.len());
    // The answers by their place: nothing is known of what is written through a zip with iter_mut.
    for (i, call) in calls[..count].iter().enumerate() {
        answers[i] = job.perform(call);
    }
    job
}
