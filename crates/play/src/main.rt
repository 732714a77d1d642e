// The player: reads the feeder's sheet and a script, serves the script's lines on one job, and prints the answers as it goes.
#![tactic(auto)]

ghost use Rattle.std.specs.Prelude.{IfOk};
ghost use Rattle.histories.specs.Rules.{Plans};
ghost use Rattle.jobs.specs.Reach.{Reached};
ghost use Rattle.sessions.specs.Served.{history_of};

use feeders::Feeder;
use inputs::{SHEET_MOST, read_front, sheet_bytes};
use jobs::Job;
use scripts::{answer_line, fault_line, next_line};
use sessions::serve;
use sheets::SheetFeeder;
use std::io;
use std::io::Write;

const SCRIPT_MOST: usize = 65536;

const TRACE_ROOM: usize = 65536;

// Makes a new job over the feeder and serves the lines of the script on it, in their order; what each answers is printed at once.
// The calls of the script, and no others, lead to the job that is given back.
fn play<F: Feeder + Drop>(
    rt: &HostRuntime,
    feeder: F,
    script: &[u8],
    rows: &mut [u8],
) -> io::Result<Job<F>>
    ensures { IfOk result (λ job. (plan : Plans) × Reached (F.Feeder.motion feeder) (history_of script.now) plan job) }
{
    let mut job = Job::new(feeder);
    let mut rest = script;
    while let Some((line, after)) = next_line(rest) {
        let reply = serve(&mut job, line, rows);
        rt.print(answer_line(rt.alloc(), reply.request, reply.refusal, reply.plan)?)?;
        rt.stdout().write_all(&rows[..reply.rows])?;
        rest = after;
    }
    Ok(job)
}

// Reads the script and plays it.
fn run_script(rt: &HostRuntime, feeder: SheetFeeder) -> io::Result<()> {
    let mut buffer = [0u8; SCRIPT_MOST];
    let script = read_front(&mut rt.stdin(), &mut buffer)?;
    // On the stack: the rows of a trace go out before the next line is served.
    let mut rows = [0u8; TRACE_ROOM];
    let job = play(rt, feeder, script, &mut rows)?;
    let _feeder = job.finish();
    Ok(())
}

fn main(rt: HostRuntime) -> io::Result<()> {
    let mut buffer = [0u8; SHEET_MOST];
    match sheets::read(sheet_bytes(&rt, &mut buffer)) {
        Ok(feeder) => run_script(&rt, feeder),
        Err(fault) => rt.print(fault_line(rt.alloc(), fault)?),
    }
}
