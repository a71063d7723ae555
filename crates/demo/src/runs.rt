// The runs of the task: unstruck, and struck once.
use crate::journal::Journal;
use anyhow::anyhow;
use checker::pass::Pass;
use machine::ends::{End, Report};
use machine::queue::Pair;
use memory::{ArrayMemory, Memory};
use simulator::simulator::Simulator;
use simulator::simulator::calls::Shown;
use std::alloc::Global;
use std::io;

// The cells before each run.
const CELLS: [u32; 4] = [1, 10, 20, 30];
// More steps than the task takes.
const BUDGET: u32 = 1000;
// The strike: after this step, the second turn's `movG r24 5`, green register 24 is set from 5 to 21.
const STRUCK_AFTER: u32 = 65;

const STRUCK_PLACE: u32 = 24;

const STRUCK_FROM: u32 = 5;

const STRUCK_TO: u32 = 21;

// Stays (4): no plainer: these words are the demo's own telling, and an end has only its number elsewhere.
fn end_in_words(end: End) -> &'static str {
    match end {
        End::Going => "going on",
        End::Halted => "halted",
        End::NoSuchCell => "no such cell",
        End::Reported(Report::CountersDiffer) => "report: the counters differ",
        End::Reported(Report::StoreDiffers) => "report: blue's store is not green's",
        End::Reported(Report::Destination) => "report: the destination of a jump is wrong",
        End::Reported(Report::Queue) => "report: the queue of stores is wrong",
        End::Reported(Report::Outside) => "report: outside the code",
    }
}

fn print_cells(rt: &HostRuntime, cells: &[u32]) -> io::Result<()> {
    print!(rt; "  cells:")?;
    for word in cells {
        print!(rt; " {word}")?;
    }
    println!(rt; "")
}

fn print_end(rt: &HostRuntime, shown: Shown) -> io::Result<()> {
    println!(rt;
        "  end {} ({}), after {} steps and {} stores",
        shown.end.number(),
        end_in_words(shown.end),
        shown.steps,
        shown.stores
    )
}

// Steps one by one to the end, and tells each store as it is made; answers them.
fn step_through(
    rt: &HostRuntime,
    simulator: &mut Simulator<Journal<ArrayMemory<'_>>>,
) -> anyhow::Result<Vec<Pair>> {
    let mut made = Vec::new(rt.alloc());
    for _ in 0..BUDGET {
        let before = simulator.show();
        if !before.end.is_going() {
            break;
        }
        // A refused step shows as no store below.
        let _ = simulator.run(1);
        let after = simulator.show();
        if after.stores > before.stores
            && let Some(store) = simulator.memory().last
        {
            println!(rt;
                "  step {:>3}: cell {} becomes {}",
                after.steps, store.address, store.word
            )?;
            made.push(store)?;
        }
    }
    Ok(made)
}

// A simulator over these cells, with the module loaded.
fn loaded<'a>(
    heap: Global,
    pass: &Pass<'_>,
    cells: &'a mut [u32],
) -> anyhow::Result<Simulator<Journal<ArrayMemory<'a>>>> {
    let memory = Journal {
        under: ArrayMemory { words: cells },
        last: None,
    };
    let Ok(mut simulator) = Simulator::new(heap, memory) else {
        return Err(anyhow!("no memory for a simulator"));
    };
    // A new simulator is idle, so it refuses no load.
    let _ = simulator.load(pass);
    Ok(simulator)
}

// The unstruck run; answers its stores.
pub fn tell_unstruck(rt: &HostRuntime, pass: &Pass<'_>) -> anyhow::Result<Vec<Pair>> {
    println!(rt; "")?;
    println!(rt; "The unstruck run:")?;
    let mut cells = CELLS;
    print_cells(rt, &cells)?;
    let mut simulator = loaded(rt.alloc(), pass, &mut cells)?;
    let made = step_through(rt, &mut simulator)?;
    print_end(rt, simulator.show())?;
    // The simulator ends here, so that the cells it borrows can be read.
    let _ = simulator.into_memory();
    print_cells(rt, &cells)?;
    Ok(made)
}

// The cells at the start with the first so many of the stores made.
fn replayed(stores: &[Pair], count: u32) -> [u32; 4] {
    let mut cells = CELLS;
    for store in stores.iter().take(count as usize) {
        if let Some(cell) = cells.get_mut(store.address as usize) {
            *cell = store.word;
        }
    }
    cells
}

// The same run, struck once.
pub fn tell_struck(rt: &HostRuntime, pass: &Pass<'_>, stores: &[Pair]) -> anyhow::Result<()> {
    println!(rt; "")?;
    println!(rt; "The same run, struck once:")?;
    let mut cells = CELLS;
    let mut simulator = loaded(rt.alloc(), pass, &mut cells)?;
    // What the run came to is told from what the simulator shows.
    let _ = simulator.run(STRUCK_AFTER);
    print_end(rt, simulator.show())?;
    match simulator.strike(STRUCK_PLACE, STRUCK_TO) {
        Ok(bits) => println!(rt;
            "  strike: register {STRUCK_PLACE} from {STRUCK_FROM} to {STRUCK_TO}, {bits} bit changed, after step {STRUCK_AFTER}"
        )?,
        Err(refusal) => println!(rt; "  strike refused: {}", refusal.number())?,
    }
    step_through(rt, &mut simulator)?;
    let shown = simulator.show();
    print_end(rt, shown)?;
    // The simulator ends here, so that the cells it borrows can be read.
    let _ = simulator.into_memory();
    print_cells(rt, &cells)?;
    let expected = replayed(stores, shown.stores);
    if cells == expected {
        println!(rt;
            "  these are the unstruck run's cells after its first {} stores",
            shown.stores
        )?;
    } else {
        println!(rt;
            "  these are NOT the unstruck run's cells after its first {} stores",
            shown.stores
        )?;
    }
    Ok(())
}
