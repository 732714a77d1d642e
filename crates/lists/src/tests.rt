// Small lists, changed by each call.
use crate::{Bounded, Full};
use std::test::Fail;

#[test]
fn a_new_list_is_empty(rt: HostRuntime) {
    let list: Bounded<u8, 4> = Bounded::new(7);
    assert_eq!(rt; list.len(), 0);
    assert!(rt; list.is_empty());
    assert_eq!(rt; list.as_slice(), [].as_slice());
    assert_eq!(rt; list.get(0), None);
}

#[test]
fn items_are_pushed_at_the_end(rt: HostRuntime) -> Result<(), Fail> {
    let mut list: Bounded<u32, 2> = Bounded::new(0);
    list.push(300)?;
    assert!(rt; !list.is_empty());
    list.push(5)?;
    assert_eq!(rt; list.push(6), Err(Full));
    assert_eq!(rt; list.len(), 2);
    assert_eq!(rt; list.as_slice(), [300, 5].as_slice());
    assert_eq!(rt; list.get(0), Some(300));
    assert_eq!(rt; list.get(2), None);
    Ok(())
}

#[test]
fn a_slice_goes_in_as_a_whole_or_not_at_all(rt: HostRuntime) -> Result<(), Fail> {
    let mut list: Bounded<u8, 4> = Bounded::new(0);
    list.extend_from_slice(&[1, 2, 3])?;
    assert_eq!(rt; list.extend_from_slice(&[4, 5]), Err(Full));
    assert_eq!(rt; list.as_slice(), [1, 2, 3].as_slice());
    list.extend_from_slice(&[])?;
    list.extend_from_slice(&[4])?;
    assert_eq!(rt; list.as_slice(), [1, 2, 3, 4].as_slice());
    Ok(())
}

#[test]
fn an_item_is_taken_out_of_its_place(rt: HostRuntime) -> Result<(), Fail> {
    let mut list: Bounded<u8, 4> = Bounded::new(0);
    list.extend_from_slice(&[5, 6, 7, 8])?;
    assert_eq!(rt; list.remove(1), Some(6));
    assert_eq!(rt; list.as_slice(), [5, 7, 8].as_slice());
    assert_eq!(rt; list.remove(3), None);
    assert_eq!(rt; list.remove(2), Some(8));
    assert_eq!(rt; list.remove(0), Some(5));
    assert_eq!(rt; list.as_slice(), [7].as_slice());
    Ok(())
}

#[test]
fn an_item_gives_way_to_another(rt: HostRuntime) -> Result<(), Fail> {
    let mut list: Bounded<u8, 4> = Bounded::new(0);
    list.extend_from_slice(&[5, 6])?;
    assert_eq!(rt; list.replace(1, 9), Some(6));
    assert_eq!(rt; list.replace(2, 9), None);
    assert_eq!(rt; list.as_slice(), [5, 9].as_slice());
    Ok(())
}

#[test]
fn an_item_is_changed_in_its_place(rt: HostRuntime) -> Result<(), Fail> {
    let mut list: Bounded<u8, 4> = Bounded::new(0);
    list.extend_from_slice(&[5, 6])?;
    if let Some(item) = list.get_mut(1) {
        *item += 1;
    }
    assert!(rt; list.get_mut(2).is_none());
    assert_eq!(rt; list.as_slice(), [5, 7].as_slice());
    Ok(())
}

#[test]
fn a_cleared_list_takes_items_again(rt: HostRuntime) -> Result<(), Fail> {
    let mut list: Bounded<u8, 1> = Bounded::new(0);
    list.push(1)?;
    list.clear();
    assert!(rt; list.is_empty());
    list.push(2)?;
    assert_eq!(rt; list.as_slice(), [2].as_slice());
    Ok(())
}

#[test]
fn rows_are_lists_in_a_list(rt: HostRuntime) -> Result<(), Fail> {
    let mut rows: Bounded<Bounded<u8, 2>, 3> = Bounded::new(Bounded::new(0));
    let mut row = Bounded::new(0);
    row.push(4)?;
    rows.push(row)?;
    rows.push(Bounded::new(0))?;
    if let Some(second) = rows.get_mut(1) {
        second.push(5)?;
    }
    assert_eq!(rt; rows.as_slice()[0].as_slice(), [4].as_slice());
    assert_eq!(rt; rows.as_slice()[1].as_slice(), [5].as_slice());
    Ok(())
}
