// What a line of a script may ask for.
ghost use Rattle.std.specs.Prelude.{◌≡◌};
ghost use Rattle.scripts.specs.Requests.{letter_of};

// The number is a pose, an action or a place, as the request has it.
// Not the calls of a job: a line can ask for a trace, and cannot hand over a list.
#[derive(Clone, Copy, PartialEq, Eq, Debug)]
pub enum Request {
    Bar(u32),
    Allow(u32),
    Shake,
    Step(u32),
    Plan,
    Add(u32),
    Cut(u32),
    Aim(u32),
    Trace,
}

impl Request {
    // The letter that stands for the request.
    pub(crate) fn letter(self) -> char
        ensures { result ≡ letter_of self }
    {
        match self {
            Request::Bar(_) => 'B',
            Request::Allow(_) => 'A',
            Request::Shake => 'K',
            Request::Step(_) => 'S',
            Request::Plan => 'P',
            Request::Add(_) => 'D',
            Request::Cut(_) => 'C',
            Request::Aim(_) => 'M',
            Request::Trace => 'T',
        }
    }
}
