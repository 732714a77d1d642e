// One line of a script, on a job.
ghost use Rattle.std.specs.Prelude.{◌≡◌, ℕ, ◌≤◌, List, length, IfOk};
ghost use Rattle.histories.specs.Rules.{Plans};
ghost use Rattle.histories.specs.declared.call.Call.{Call};
ghost use Rattle.jobs.specs.Reach.{Reached};
ghost use Rattle.scripts.specs.Reading.{request_of};
ghost use Rattle.sessions.specs.Served.{Done, Served, call_of};

use crate::reply::Reply;
use feeders::Feeder;
use histories::Call;
use jobs::Job;
use refusals::Refusal;
use scripts::{Request, read_request};

// Does what the line asks for: a call is made on the job, and rows go to the front of the buffer. A line of another form does nothing.
pub fn serve<F: Feeder>(job: &mut Job<F>, line: &[u8], buffer: &mut [u8]) -> Reply
    ensures same { job.new.feeder ≡ job.old.feeder }
    ensures room { result.rows ≤ length buffer.old }
    ensures served { (h : List Call) (plan : Plans) → Reached (F.Feeder.motion job.old.feeder) h plan job.old → Served (F.Feeder.motion job.old.feeder) h plan (request_of line.now) job.new buffer.old buffer.new result }
{
    let request = read_request(line);
    let rows = do_request(job, request, buffer);
    Reply {
        request,
        refusal: rows.err(),
        plan: job.plan_len(),
        rows: rows.unwrap_or(0),
    }
}

// Makes the call of a request, or traces the plan; answers how many bytes of rows there are. No request is a value outside its limit.
fn do_request<F: Feeder>(
    job: &mut Job<F>,
    request: Option<Request>,
    buffer: &mut [u8],
) -> Result<usize, Refusal>
    ensures same { job.new.feeder ≡ job.old.feeder }
    ensures room { IfOk result (λ rows. rows ≤ length buffer.old) }
    ensures done { (h : List Call) (plan : Plans) → Reached (F.Feeder.motion job.old.feeder) h plan job.old → Done (F.Feeder.motion job.old.feeder) h plan request job.new buffer.old buffer.new result }
{
    let request = request.ok_or(Refusal::OutsideLimit)?;
    let Some(call) = call_of(request) else {
        return Ok(12 * (job.trace(buffer)? + 1));
    };
    job.perform(&call)?;
    Ok(0)
}

// The call that the request makes; a trace makes none.
fn call_of(request: Request) -> Option<Call<'static>>
    ensures { result ≡ call_of request }
{
    match request {
        Request::Bar(action) => Some(Call::Bar(action)),
        Request::Allow(action) => Some(Call::Allow(action)),
        Request::Shake => Some(Call::Shake),
        Request::Step(action) => Some(Call::Step(action)),
        Request::Plan => Some(Call::Plan),
        Request::Add(action) => Some(Call::Add(action)),
        Request::Cut(place) => Some(Call::Cut(place as usize)),
        Request::Aim(pose) => Some(Call::Aim(pose)),
        Request::Trace => None,
    }
}
