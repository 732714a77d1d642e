// The program: reads the feeder's sheet, and plans from all its poses with all its actions.
#![tactic(auto)]

use inputs::{SHEET_MOST, sheet_bytes};
use planning::plan_every;
use plans::Plan;
use scripts::{action_line, fault_line, plan_line};
use sheets::SheetFeeder;
use std::io;

// Plans from all poses with all actions, and prints the answer and the plan's actions, one to a line.
// Where no plan is made there are no actions.
fn plan(rt: &HostRuntime, feeder: &SheetFeeder) -> io::Result<()> {
    let mut plan = Plan::new();
    let outcome = plan_every(feeder, u32::MAX, &mut plan).map(|()| plan.len());
    rt.print(plan_line(rt.alloc(), outcome)?)?;
    for action in plan.as_slice() {
        rt.print(action_line(rt.alloc(), *action)?)?;
    }
    Ok(())
}

fn main(rt: HostRuntime) -> io::Result<()> {
    let mut buffer = [0u8; SHEET_MOST];
    match sheets::read(sheet_bytes(&rt, &mut buffer)) {
        Ok(feeder) => plan(&rt, &feeder),
        Err(fault) => rt.print(fault_line(rt.alloc(), fault)?),
    }
}
