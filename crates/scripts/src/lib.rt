// Scripts: their lines, the requests that the lines make, and the lines that are printed.
#![tactic(auto)]

mod answer;
mod lines;
mod read;
mod request;

ghost use Rattle.std.specs.Prelude.{◌≡◌, IfOk, string_bytes};
ghost use Rattle.scripts.specs.Lines.{action_line, fault_line, plan_line};

pub use answer::answer_line;
pub use lines::next_line;
pub use read::read_request;
use refusals::{Fault, Refusal};
pub use request::Request;
use std::alloc::{AllocError, Global};

// The line of a refused sheet.
// A function and no Display: the line is more than the fault.
pub fn fault_line(heap: Global, fault: Fault) -> Result<String, AllocError>
    ensures { IfOk result (λ line. string_bytes line ≡ fault_line fault) }
{
    format!(in heap; "! {fault}\n")
}

// The line of the planner's answer: the plan's length, or the refusal.
// A function and no Display: the outcome is of the library's type.
pub fn plan_line(heap: Global, outcome: Result<usize, Refusal>) -> Result<String, AllocError>
    ensures { IfOk result (λ line. string_bytes line ≡ plan_line outcome) }
{
    match outcome {
        Ok(length) => format!(in heap; "P 00 {length}\n"),
        Err(refusal) => format!(in heap; "P {refusal} -\n"),
    }
}

// The line of one action of a plan.
// A function and no Display: an action of a plan is a byte.
pub fn action_line(heap: Global, action: u8) -> Result<String, AllocError>
    ensures { IfOk result (λ line. string_bytes line ≡ action_line action) }
{
    format!(in heap; "{action}\n")
}

#[cfg(test)]
mod tests;
