// What the check says of small modules.
use crate::bench::*;
use std::test::Fail;

#[test]
fn blue_reading_green_is_refused(rt: HostRuntime) -> Result<(), Fail> {
    assert!(rt; verdict(rt.alloc(), &module_s(BLUE_READS_BLUE))?.is_none());
    let fault = verdict(rt.alloc(), &module_s(BLUE_READS_GREEN))?.ok_or("passed")?;
    assert!(rt; fault.number() == 9 && fault.place() == 5);
    Ok(())
}

#[test]
fn numbers_are_folded_and_trees_compared(rt: HostRuntime) -> Result<(), Fail> {
    assert!(rt; verdict(rt.alloc(), &folded())?.is_none());
    let fault = verdict(rt.alloc(), &doubled_and_twice())?.ok_or("passed")?;
    assert!(rt; fault.number() == 9 && fault.place() == 8);
    Ok(())
}

#[test]
fn a_thousand_doublings_are_judged_at_once(rt: HostRuntime) -> Result<(), Fail> {
    let words = doubling(rt.alloc(), 1000)?;
    assert!(rt; verdict(rt.alloc(), words.as_slice())?.is_none());
    Ok(())
}

#[test]
fn any_words_get_a_fault(rt: HostRuntime) -> Result<(), Fail> {
    let fault = verdict(rt.alloc(), &[])?.ok_or("passed")?;
    assert!(rt; fault.number() == 7 && fault.place() == 0);
    let mut late = module_s(BLUE_READS_BLUE);
    late[16] = 1;
    let fault = verdict(rt.alloc(), &late)?.ok_or("passed")?;
    assert!(rt; fault.number() == 8 && fault.place() == 0);
    Ok(())
}
