// Many sheets, good and refused: prints for each what comes of it.
#![tactic(auto)]

use feeders::Feeder;
use scripts::fault_line;
use std::io;

// The kind byte, and the form of numbers.
const NUMBERS: &[&[u8]] = &[
    &[],
    &[0],
    &[9],
    &[0x81, 0],
    &[3],
    &[3, 3],
    &[3, 3, 0x80],
    &[1, 0x80, 0],
    &[1, 0x80, 0x80, 0x80, 0x80],
    &[1, 0x80, 0x80, 0x80, 0x80, 0x80],
    &[1, 0xFF, 0xFF, 0xFF, 0xFF, 0x10],
];

const SQUEEZE_TABLES: &[&[u8]] = &[
    &[1, 1],
    &[1, 2, 1, 1, 0, 0, 0],
    &[1, 0xA0, 0x99, 2, 1, 1, 0, 0, 0],
    &[1, 0xA1, 0x99, 2, 1, 1, 0, 0, 0],
    &[1, 10, 0],
    &[1, 10, 33],
    &[1, 10, 1, 33],
    &[1, 10, 2, 1, 0, 5, 4],
    &[1, 10, 2, 1, 0, 5, 5],
    &[1, 10, 2, 1, 0, 5, 6, 5],
    &[1, 10, 2, 1, 3, 12, 4],
    &[1, 10, 2, 1, 3, 12, 11],
    &[1, 10, 2, 1, 3, 4, 5, 12, 9],
    &[1, 10, 2, 1, 3, 4, 5, 13, 9],
    &[1, 10, 1, 1, 0, 0, 10],
    &[1, 10, 1, 1, 0, 0, 9, 0],
];

const TRAYS: &[&[u8]] = &[
    &[2, 1, 0],
    &[2, 17],
    &[2, 1, 17],
    &[2, 1, 2, 0x2E],
    &[2, 1, 2, 0x2E, 0x2F],
    &[2, 1, 2, 0x23, 0x23],
    &[2, 1, 2, 0x23, 0x23, 0],
    &[2, 1, 1, 0x2E, 0],
    &[2, 1, 3, 0x2E, 0x2E, 0x2E],
    &[2, 1, 3, 0x2E, 0x23, 0x2E],
];

const GATE_ROWS: &[&[u8]] = &[
    &[3, 0],
    &[3, 33],
    &[3, 3, 0],
    &[3, 3, 33],
    &[3, 3, 1, 8, 0],
    &[3, 3, 1, 7, 3],
    &[3, 3, 2, 7, 1, 4],
    &[3, 3, 2, 7, 1, 4, 1],
    &[3, 32, 1, 0xFF, 0xFF, 0xFF, 0xFF, 0x0F, 31],
    &[3, 3, 2, 7, 1, 4, 1, 0],
];

// Prints the feeder's poses and actions, or the program's line and the reader that stopped.
fn show(rt: &(impl Print + AllocGlobal), sheet: &[u8]) -> io::Result<()> {
    for byte in sheet {
        print!(rt; "{byte:02X} ")?;
    }
    match sheets::read(sheet) {
        Ok(feeder) => {
            let poses = feeder.poses();
            let actions = feeder.actions();
            println!(rt; "= {poses} poses, {actions} actions")
        }
        Err(fault) => {
            print!(rt; "= {:?} ", fault.reader)?;
            rt.print(fault_line(rt.alloc(), fault)?)
        }
    }
}

fn main(rt: HostRuntime) -> io::Result<()> {
    for sheets in [NUMBERS, SQUEEZE_TABLES, TRAYS, GATE_ROWS] {
        for sheet in sheets {
            show(&rt, sheet)?;
        }
    }
    Ok(())
}
