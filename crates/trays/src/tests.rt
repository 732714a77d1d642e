// Small trays and bad sheets, as a user would try them.
use crate::{Direction, Tray};
use feeders::Feeder;
use refusals::{Fault, Reader, Refusal};
use std::process::Abort;
use std::test::Fail;

fn filled(sheet: &[u8]) -> Result<Tray, Fail> {
    let mut tray = Tray::new();
    tray.fill(sheet)?;
    Ok(tray)
}

// In each kind's own tests: they know their own table.
fn refuses(rt: &impl Abort, sheet: &[u8], refusal: Refusal, place: usize) {
    let mut tray = Tray::new();
    let fault = Fault {
        refusal,
        place,
        reader: Reader::Sheet,
    };
    assert_eq!(rt; tray.fill(sheet).err(), Some(fault));
    assert_eq!(rt; tray.poses(), 1);
}

#[test]
fn three_free_cells_in_a_row(rt: HostRuntime) -> Result<(), Fail> {
    let tray = filled(&[2, 1, 3, 0x2E, 0x2E, 0x2E])?;
    assert_eq!(rt; tray.poses(), 3);
    assert_eq!(rt; tray.actions(), 4);
    assert_eq!(rt; tray.follow(0, 1), Ok(2));
    assert_eq!(rt; tray.follow(2, 3), Ok(0));
    assert_eq!(rt; tray.follow(1, 0), Ok(1));
    Ok(())
}

#[test]
fn a_wall_stops_the_part(rt: HostRuntime) -> Result<(), Fail> {
    let tray = filled(&[2, 1, 3, 0x2E, 0x23, 0x2E])?;
    assert_eq!(rt; tray.follow(0, 1), Ok(0));
    assert_eq!(rt; tray.tilt(1, Direction::West), Ok(1));
    Ok(())
}

#[test]
fn two_rows(rt: HostRuntime) -> Result<(), Fail> {
    let tray = filled(&[2, 2, 2, 0x2E, 0x23, 0x2E, 0x2E])?;
    assert_eq!(rt; tray.tilt(0, Direction::South), Ok(1));
    assert_eq!(rt; tray.tilt(1, Direction::North), Ok(0));
    assert_eq!(rt; tray.tilt(2, Direction::North), Ok(2));
    Ok(())
}

#[test]
fn absent_poses_and_actions(rt: HostRuntime) {
    let tray = Tray::new();
    assert_eq!(rt; tray.follow(1, 4), Err(Refusal::NoPose));
    assert_eq!(rt; tray.follow(0, 4), Err(Refusal::NoAction));
    assert_eq!(rt; tray.tilt(1, Direction::East), Err(Refusal::NoPose));
}

#[test]
fn bad_sheets(rt: HostRuntime) {
    refuses(&rt, &[2, 1, 0], Refusal::OutsideLimit, 2);
    refuses(&rt, &[2, 1, 1, 0x2E, 0], Refusal::LeftOver, 4);
    refuses(&rt, &[2, 1, 2, 0x23, 0x23], Refusal::OutsideLimit, 5);
    refuses(&rt, &[2, 1, 2, 0x2E], Refusal::EndsEarly, 4);
    refuses(&rt, &[2, 1, 2, 0x2E, 0x2F], Refusal::OutsideLimit, 4);
    refuses(&rt, &[1, 1, 1, 0x2E], Refusal::WrongKind, 0);
    refuses(&rt, &[], Refusal::EndsEarly, 0);
}
