// The lines that answer requests.
ghost use Rattle.std.specs.Prelude.{◌≡◌, IfOk, string_bytes};
ghost use Rattle.scripts.specs.Lines.{answer_line, shown_number};

use crate::request::Request;
use refusals::Refusal;
use std::alloc::{AllocError, Global};

// The line of the answer to a request, or to a line of another form: the refusal if there is one, and the length of the plan that is held.
// A function and no Display: the line is made of three values that no type holds together.
pub fn answer_line(
    heap: Global,
    request: Option<Request>,
    refusal: Option<Refusal>,
    plan: Option<usize>,
) -> Result<String, AllocError>
    ensures { IfOk result (λ line. string_bytes line ≡ answer_line request refusal plan) }
{
    let letter = request.map_or('?', Request::letter);
    let number = shown_number(request, refusal);
    match plan {
        Some(length) => format!(in heap; "{letter} {number:02} {length}\n"),
        None => format!(in heap; "{letter} {number:02} -\n"),
    }
}

// The number of the answer.
fn shown_number(request: Option<Request>, refusal: Option<Refusal>) -> u8
    ensures { result ≡ shown_number request refusal }
{
    match (request, refusal) {
        (None, _) => Refusal::OutsideLimit.into(),
        (Some(_), None) => 0,
        (Some(_), Some(why)) => why.into(),
    }
}
