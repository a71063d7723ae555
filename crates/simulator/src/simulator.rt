// A simulator over a memory of the host's.
use machine::code::Code;
use machine::run::Run;
use memory::Memory;

pub mod calls;
pub mod replay;

// The memory, the store for a module's code, and the run: None while the simulator is idle.
#[derive(Drop)]
pub struct Simulator<M: Memory> {
    memory: M,
    code: Code,
    run: Option<Run>,
}
