// The calls of a job, what they mean by the calls made before them, and the guarantee. Its functions only name what is proved.
#![tactic(auto)]

ghost use Rattle.histories.specs.Promise.{Determined, RulesAreSure};

mod call;

pub use call::{Answer, Call};

// Whatever the rules make of the calls, no held plan leaves doubt, and no refusal is false.
pub fn rules_are_sure()
    ensures { RulesAreSure }
{}

// The calls determine what is answered and held.
pub fn rules_determine()
    ensures { Determined }
{}
