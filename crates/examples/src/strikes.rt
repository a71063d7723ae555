// Module S, unstruck and struck.
use crate::bench::*;
use checker::check::Checker;
use checker::pass::Pass;
use memory::{ArrayMemory, Memory};
use simulator::simulator::Simulator;
use std::process::Abort;
use std::test::Fail;

// A strike after so many steps.
#[derive(Clone, Copy)]
struct Strike {
    after: u32,
    place: u32,
    value: u32,
    bits: u32,
}

// Runs module S over six cells of 0 with the strike, if one is given; answers end, steps, stores and cell 5.
fn run_s(
    rt: &(impl Abort + AllocGlobal),
    strike: Option<Strike>,
) -> Result<(u32, u32, u32, u32), Fail> {
    let words = module_s(BLUE_READS_BLUE);
    let mut cells = [0u32; 6];
    let mut checker = Checker::new(rt.alloc())?;
    let Ok(pass) = checker.check(&words) else {
        return Err(Fail::new("refused"));
    };
    let Ok(mut simulator) = Simulator::new(rt.alloc(), ArrayMemory { words: &mut cells }) else {
        return Err(Fail::new("no memory"));
    };
    assert!(rt; simulator.load(&pass).is_ok());
    if let Some(s) = strike {
        assert!(rt; simulator.run(s.after).is_ok());
        assert!(rt; simulator.strike(s.place, s.value).ok() == Some(s.bits));
    }
    assert!(rt; simulator.run(100).is_ok());
    let shown = simulator.show();
    let _ = simulator.into_memory();
    Ok((shown.end.number(), shown.steps, shown.stores, cells[5]))
}

#[test]
fn unstruck(rt: HostRuntime) -> Result<(), Fail> {
    assert!(rt; run_s(&rt, None)? == (1, 7, 1, 7));
    Ok(())
}

#[test]
fn struck_once(rt: HostRuntime) -> Result<(), Fail> {
    let early = Strike {
        after: 3,
        place: 2,
        value: 8,
        bits: 4,
    };
    assert!(rt; run_s(&rt, Some(early))? == (4, 6, 0, 0));
    let late = Strike {
        after: 6,
        place: 2,
        value: 8,
        bits: 4,
    };
    assert!(rt; run_s(&rt, Some(late))? == (1, 7, 1, 7));
    let counter = Strike {
        after: 2,
        place: 32,
        value: 0,
        bits: 1,
    };
    assert!(rt; run_s(&rt, Some(counter))? == (3, 3, 0, 0));
    Ok(())
}

#[test]
fn refusals(rt: HostRuntime) -> Result<(), Fail> {
    let mut cells = [0u32; 6];
    let pass = Pass::new();
    let Ok(mut simulator) = Simulator::new(rt.alloc(), ArrayMemory { words: &mut cells }) else {
        return Err(Fail::new("no memory"));
    };
    assert!(rt; simulator.run(0).is_err() && simulator.strike(0, 1).is_err());
    assert!(rt; simulator.load(&pass).is_ok() && simulator.load(&pass).is_err());
    assert!(rt; simulator.run(0).is_err() && simulator.run(1_000_001).is_err());
    assert!(rt; simulator.strike(35, 1).is_err() && simulator.strike(67, 1).is_err());
    assert!(rt; simulator.run(1).is_ok() && simulator.run(1).is_err());
    Ok(())
}
