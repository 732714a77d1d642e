// The calls that can be made on a job, and what they answer.
use refusals::Refusal;

// One call. Actions, poses and places are any numbers: what is absent is refused.
#[derive(Clone, Copy, PartialEq, Eq, Debug)]
pub enum Call<'a> {
    // The action is barred from now on.
    Bar(u32),
    // The action is permitted from now on.
    Allow(u32),
    // The part is shaken: any pose is possible again.
    Shake,
    // The action is performed.
    Step(u32),
    // A plan is made by the pair rule.
    Plan,
    // The list becomes the plan.
    Put(&'a [u8]),
    // The action is added at the plan's end.
    Add(u32),
    // The action at the place is taken out of the plan.
    Cut(usize),
    // The plan is lengthened so that it ends in the pose.
    Aim(u32),
}

// The length of the plan that is held after the call, or that none is held; or why the call is refused.
pub type Answer = Result<Option<usize>, Refusal>;
