// Squeeze tables from their sheets, and angles on the edge of a step.
use crate::SqueezeTable;
use feeders::Feeder;
use refusals::{Fault, Reader, Refusal};
use std::process::Abort;
use std::test::Fail;

// The table that refuses the sheet stays as it was.
// In each kind's own tests: they know their own table.
fn refuses(rt: &impl Abort, sheet: &[u8], refusal: Refusal, place: usize, reader: Reader) {
    let mut table = SqueezeTable::new();
    assert_eq!(rt;
        table.fill(sheet),
        Err(Fault {
            refusal,
            place,
            reader,
        })
    );
    assert_eq!(rt; table.poses(), 1);
    assert_eq!(rt; table.actions(), 1);
    assert_eq!(rt; table.step_of(3), 0);
}

// 180 ticks; from 0 to 40, and from 100 to 150. From 40 the turns lead to the edge at 100, one below it, and one above it.
#[test]
fn an_edge_belongs_to_the_step_that_begins_there(rt: HostRuntime) -> Result<(), Fail> {
    let mut table = SqueezeTable::new();
    table.fill(&[1, 0xB4, 1, 2, 2, 0, 0x28, 0x64, 0x96, 1, 0x3C, 0x3B])?;
    assert_eq!(rt; table.follow(0, 0), Ok(1));
    assert_eq!(rt; table.follow(0, 1), Ok(0));
    assert_eq!(rt; table.follow(1, 0), Ok(0));
    assert_eq!(rt; table.follow(2, 2), Err(Refusal::NoPose));
    assert_eq!(rt; table.follow(1, 2), Err(Refusal::NoAction));
    table.fill(&[1, 0xB4, 1, 2, 1, 0, 0x28, 0x64, 0x96, 1, 0x3D])?;
    assert_eq!(rt; table.follow(0, 0), Ok(1));
    Ok(())
}

// 10 ticks; from 3 to 5, and from 7 to 12, past the half turn.
#[test]
fn an_angle_below_every_beginning_lies_in_the_last_step(rt: HostRuntime) -> Result<(), Fail> {
    let mut table = SqueezeTable::new();
    table.fill(&[1, 10, 2, 1, 3, 5, 7, 12, 0])?;
    assert_eq!(rt; table.step_of(2), 1);
    assert_eq!(rt; table.step_of(13), 0);
    assert_eq!(rt; table.step_of(6), 0);
    assert_eq!(rt; table.step_of(7), 1);
    Ok(())
}

#[test]
fn refused_sheets(rt: HostRuntime) {
    refuses(&rt, &[], Refusal::EndsEarly, 0, Reader::Sheet);
    refuses(&rt, &[2, 10], Refusal::WrongKind, 0, Reader::Sheet);
    refuses(&rt, &[1, 0x80, 0], Refusal::BadNumber, 1, Reader::Number);
    refuses(&rt, &[1, 10, 2], Refusal::EndsEarly, 3, Reader::Number);
    refuses(
        &rt,
        &[1, 0xA1, 0x99, 2],
        Refusal::OutsideLimit,
        1,
        Reader::Sheet,
    );
    refuses(
        &rt,
        &[1, 10, 2, 1, 0, 5, 4],
        Refusal::OutOfOrder,
        6,
        Reader::Sheet,
    );
    refuses(
        &rt,
        &[1, 10, 2, 1, 3, 12, 4],
        Refusal::OutOfOrder,
        6,
        Reader::Sheet,
    );
    refuses(
        &rt,
        &[1, 10, 2, 1, 3, 12, 11],
        Refusal::OutsideLimit,
        6,
        Reader::Sheet,
    );
    refuses(
        &rt,
        &[1, 10, 1, 1, 3, 13, 0],
        Refusal::OutOfOrder,
        5,
        Reader::Sheet,
    );
    refuses(
        &rt,
        &[1, 10, 1, 1, 3, 12, 0, 0],
        Refusal::LeftOver,
        7,
        Reader::Sheet,
    );
}
