// What is to be printed for a line.
use refusals::Refusal;
use scripts::Request;

// The line's request, why it was refused if it was, the length of the plan that is held after it, and how many bytes of rows follow its answer.
#[derive(Clone, Copy, PartialEq, Eq, Debug)]
pub struct Reply {
    pub request: Option<Request>,
    pub refusal: Option<Refusal>,
    pub plan: Option<usize>,
    // A count and not the bytes: the reply is Copy, and does not hold the caller's buffer.
    pub rows: usize,
}
