// Texts and what becomes of them.
use crate::bench::*;
use checker::check::Checker;
use compiler::tables::Compiler;
use isa::limits::MODULE_WORDS;
use memory::{ArrayMemory, Memory};
use plan::fault::Layer;
use plan::reader::Reader;
use simulator::simulator::Simulator;
use std::process::Abort;
use std::test::Fail;

const SAMPLE: &str = "LET A = [0]\nREPEAT 3\nPUT A , [A] + 5\nLET A = A + 1\nEND";

fn expect(
    rt: &(impl Abort + AllocGlobal),
    text: &str,
    number: u8,
    place: usize,
    layer: Layer,
) -> Result<(), Fail> {
    let fault = fault_of(rt.alloc(), text)?.ok_or("compiled")?;
    assert!(rt; fault.number() == number && fault.place() == place && fault.layer() == layer);
    Ok(())
}

#[test]
fn the_sample_plan(rt: HostRuntime) -> Result<(), Fail> {
    let mut cells = [1u32, 10, 20, 30];
    let mut compiler = Compiler::new(rt.alloc())?;
    let mut out = vec![in rt.alloc(); 0u32; MODULE_WORDS]?;
    let Ok(count) = compiler.compile(SAMPLE.as_bytes(), out.as_mut_slice()) else {
        return Err(Fail::new("refused"));
    };
    assert!(rt; compiler.plan().need() == 55);
    assert!(rt; count <= out.len());
    let mut checker = Checker::new(rt.alloc())?;
    let Ok(pass) = checker.check(&out.as_slice()[0..count]) else {
        return Err(Fail::new("refused by the check"));
    };
    let Ok(mut simulator) = Simulator::new(rt.alloc(), ArrayMemory { words: &mut cells }) else {
        return Err(Fail::new("no memory"));
    };
    assert!(rt; simulator.load(&pass).is_ok() && simulator.run(1000).is_ok());
    assert!(rt; simulator.show().end.number() == 1 && simulator.show().stores == 3);
    let _ = simulator.into_memory();
    assert!(rt; cells == [1, 15, 25, 35]);
    Ok(())
}

#[test]
fn faults_by_place(rt: HostRuntime) -> Result<(), Fail> {
    expect(&rt, "LET A = 4294967296", 3, 8, Layer::Marks)?;
    expect(&rt, "PUT 1", 4, 5, Layer::Reader)?;
    expect(&rt, "LET A =\n?", 4, 7, Layer::Reader)?;
    expect(&rt, "LETA=1", 3, 0, Layer::Marks)?;
    expect(&rt, "REPEAT 1\n", 4, 9, Layer::Reader)?;
    expect(&rt, "END", 4, 0, Layer::Reader)?;
    expect(&rt, "LET A = 1 < 2 < 3", 4, 14, Layer::Reader)?;
    expect(&rt, "LET A = 1+(2+(3+(4+(5+6))))", 5, 8, Layer::Builder)
}

#[test]
fn texts_that_compile(rt: HostRuntime) -> Result<(), Fail> {
    assert!(rt; fault_of(rt.alloc(), "")?.is_none());
    assert!(rt; fault_of(rt.alloc(), "PUT1,2")?.is_none());
    assert!(rt; fault_of(rt.alloc(), "\n  \nLET A = 1-2-3*4 < [B]\n\n")?.is_none());
    Ok(())
}

#[test]
fn nesting(rt: HostRuntime) -> Result<(), Fail> {
    assert!(rt; fault_of(rt.alloc(), "LET A = ((((((((((((((((1))))))))))))))))")?.is_none());
    expect(
        &rt,
        "LET A = (((((((((((((((((1)))))))))))))))))",
        5,
        24,
        Layer::Reader,
    )?;
    expect(
        &rt,
        "REPEAT 1\nREPEAT 1\nREPEAT 1\nREPEAT 1\nREPEAT 1\n",
        5,
        36,
        Layer::Reader,
    )
}

// A line of 8,001 bytes: LET, and behind it the bytes as they are.
fn let_line(bytes: &mut [u8; 8001]) {
    bytes[..6].copy_from_slice(b"LET A=");
}

#[test]
fn long_lines_need_no_deep_stack(rt: HostRuntime) -> Result<(), Fail> {
    let mut reader = Reader::new(rt.alloc())?;
    let mut sum = [b'+'; 8001];
    for byte in sum.iter_mut().step_by(2) {
        *byte = b'1';
    }
    let_line(&mut sum);
    assert!(rt; reader.read(&sum).is_ok());
    assert!(rt; reader.plan().nodes().len() == 7995);
    let mut open = [b'('; 8001];
    let_line(&mut open);
    let fault = reader.read(&open).err().ok_or("read")?;
    assert!(rt; fault.number() == 5 && fault.place() == 22);
    Ok(())
}
