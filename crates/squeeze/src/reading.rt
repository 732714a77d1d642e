// Reading the fields of a squeeze sheet: each is tested as it is read, and a fault names the first byte of its field.
ghost use Rattle.std.specs.Prelude.{◌≡◌, ◌≤◌, [], ◌∷◌, ◌++◌};
ghost use Rattle.squeeze.specs.Reading.{TakesStep, TakesSteps, TakesTurns};
ghost use Rattle.squeeze.specs.Sheet.{follows, settles};
ghost use Rattle.squeeze.specs.Squeeze.{begin as beginning};

use crate::step::Step;
use lists::Bounded;
use numbers::Fields;
use refusals::{Fault, Refusal};

// Whether a beginning is above the last rest of the steps read.
fn is_above(steps: &[Step], begin: u32) -> bool
    ensures { result ≡ follows steps.now begin }
{
    steps.last().is_none_or(|last| last.rest < begin)
}

// Where the first of the steps begins, when `step` comes after those read.
fn first_begin(steps: &[Step], step: Step) -> u32
    ensures { result ≡ beginning (steps.now ++ (step ∷ [])) 0 }
{
    steps.first().map_or(step.begin, |first| first.begin)
}

// Whether a step may rest where it does: not below its beginning and, where no step is left, below the first beginning of the next half turn.
fn rests_right(ticks: u32, left: u32, steps: &[Step], step: Step) -> bool
    ensures { result ≡ settles ticks left steps.now step.begin step.rest }
{
    let end = u64::from(ticks) + u64::from(first_begin(steps, step));
    step.begin <= step.rest && (left > 0 || u64::from(step.rest) < end)
}

// The step after those read, with `left` steps to come after it.
fn read_step(fields: &mut Fields, ticks: u32, left: u32, steps: &[Step]) -> Result<Step, Fault>
    ensures { TakesStep ticks left steps.now fields.old fields.new result }
{
    let first = *fields;
    let begin = fields.below(u64::from(ticks))?;
    if !is_above(steps, begin) {
        return Err(first.fault(Refusal::OutOfOrder));
    }
    let second = *fields;
    let rest = fields.number()?;
    let step = Step { begin, rest };
    if !rests_right(ticks, left, steps, step) {
        return Err(second.fault(Refusal::OutOfOrder));
    }
    Ok(step)
}

// So many steps of a sheet.
// A loop of its own, as for turns: a step is tested by those before it, and a reader with a closure would say no more.
pub(crate) fn read_steps(
    fields: &mut Fields,
    ticks: u32,
    count: u32,
) -> Result<Bounded<Step, 32>, Fault>
    requires { count ≤ 32 }
    ensures { TakesSteps ticks count fields.old fields.new result }
{
    let mut steps = Bounded::new(Step { begin: 0, rest: 0 });
    for left in (0..count).rev() {
        let step = read_step(fields, ticks, left, steps.as_slice())?;
        steps.push(step).unwrap();
    }
    Ok(steps)
}

// So many turns of a sheet.
pub(crate) fn read_turns(
    fields: &mut Fields,
    ticks: u32,
    count: u32,
) -> Result<Bounded<u32, 32>, Fault>
    requires { count ≤ 32 }
    ensures { TakesTurns ticks count fields.old fields.new result }
{
    let mut turns = Bounded::new(0);
    for _ in 0..count {
        turns.push(fields.below(u64::from(ticks))?).unwrap();
    }
    Ok(turns)
}
