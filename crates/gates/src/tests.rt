// Gate rows from their sheets.
use crate::GateRow;
use feeders::Feeder;
use refusals::{Fault, Reader, Refusal};
use std::process::Abort;
use std::test::Fail;

// Three poses. The first gate turns all by 1, the second turns pose 2 by 1.
const SHEET: [u8; 7] = [3, 3, 2, 7, 1, 4, 1];

// The row that refuses the sheet stays as it was.
// In each kind's own tests: they know their own table.
fn refuses(rt: &impl Abort, sheet: &[u8], refusal: Refusal, place: usize, reader: Reader) {
    let mut row = GateRow::new();
    assert_eq!(rt;
        row.fill(sheet),
        Err(Fault {
            refusal,
            place,
            reader,
        })
    );
    assert_eq!(rt; row.poses(), 1);
    assert_eq!(rt; row.actions(), 1);
}

#[test]
fn the_smallest_row(rt: HostRuntime) {
    let row = GateRow::new();
    assert_eq!(rt; row.poses(), 1);
    assert_eq!(rt; row.actions(), 1);
    assert_eq!(rt; row.follow(0, 0), Ok(0));
}

#[test]
fn a_row_of_two_gates(rt: HostRuntime) -> Result<(), Fail> {
    let mut row = GateRow::new();
    row.fill(&SHEET)?;
    assert_eq!(rt; row.poses(), 3);
    assert_eq!(rt; row.actions(), 2);
    assert_eq!(rt; row.follow(2, 0), Ok(0));
    assert_eq!(rt; row.follow(0, 1), Ok(0));
    assert_eq!(rt; row.follow(2, 1), Ok(0));
    assert_eq!(rt; row.follow(3, 2), Err(Refusal::NoPose));
    assert_eq!(rt; row.follow(2, 2), Err(Refusal::NoAction));
    assert_eq!(rt; row.gate(1)?.set, 4);
    assert_eq!(rt; row.gate(1)?.turn, 1);
    Ok(())
}

#[test]
fn refused_sheets(rt: HostRuntime) {
    refuses(&rt, &[], Refusal::EndsEarly, 0, Reader::Sheet);
    refuses(&rt, &[9], Refusal::WrongKind, 0, Reader::Sheet);
    refuses(&rt, &[3, 3], Refusal::EndsEarly, 2, Reader::Number);
    refuses(&rt, &[3, 3, 0x80], Refusal::EndsEarly, 3, Reader::Number);
    refuses(
        &rt,
        &[3, 3, 1, 8, 0],
        Refusal::OutsideLimit,
        3,
        Reader::Sheet,
    );
    refuses(
        &rt,
        &[3, 3, 2, 7, 1, 4, 1, 0],
        Refusal::LeftOver,
        7,
        Reader::Sheet,
    );
}
