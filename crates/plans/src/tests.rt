// Small plans, changed by each call.
use crate::Plan;
use refusals::Refusal;
use std::test::Fail;

#[test]
fn a_new_plan_is_empty(rt: HostRuntime) {
    let plan = Plan::new();
    assert_eq!(rt; plan.len(), 0);
    assert!(rt; plan.is_empty());
    assert!(rt; plan.same_as(&[]));
}

#[test]
fn actions_are_pushed_at_the_end(rt: HostRuntime) -> Result<(), Fail> {
    let mut plan = Plan::new();
    plan.push(3)?;
    plan.push(0)?;
    assert_eq!(rt; plan.len(), 2);
    assert!(rt; !plan.is_empty());
    assert!(rt; plan.same_as(&[3, 0]));
    assert!(rt; !plan.same_as(&[3]));
    assert!(rt; !plan.same_as(&[3, 0, 0]));
    Ok(())
}

#[test]
fn an_action_is_removed_from_its_place(rt: HostRuntime) -> Result<(), Fail> {
    let mut plan = Plan::new();
    plan.replace(&[5, 6, 7, 8])?;
    plan.remove(1)?;
    assert!(rt; plan.same_as(&[5, 7, 8]));
    assert_eq!(rt; plan.remove(3), Err(Refusal::NoPlace));
    assert!(rt; plan.same_as(&[5, 7, 8]));
    plan.remove(2)?;
    plan.remove(0)?;
    assert!(rt; plan.same_as(&[7]));
    Ok(())
}

#[test]
fn lists_are_appended_and_replaced(rt: HostRuntime) -> Result<(), Fail> {
    let mut plan = Plan::new();
    plan.append(&[1, 2, 3])?;
    plan.append(&[4])?;
    plan.append(&[])?;
    assert!(rt; plan.same_as(&[1, 2, 3, 4]));
    plan.replace(&[9, 8])?;
    assert!(rt; plan.same_as(&[9, 8]));
    assert_eq!(rt; plan.as_slice()[1], 8);
    plan.clear();
    assert!(rt; plan.is_empty());
    Ok(())
}
