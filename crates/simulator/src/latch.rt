// One latch, read or set.
ghost use Rattle.std.specs.Prelude.{◌≡◌, ℕ};
ghost use Rattle.std.specs.List.{slice_get};
ghost use Rattle.machine.specs.Queued.{queued};
ghost use Rattle.machine.specs.Views.{latched};
ghost use Rattle.simulator.specs.Places.{Low, latch, struck, ChangesPair};

use crate::place::Place;
use machine::latches::Latches;
use machine::queue::{Pair, Queue};

// The latch at a place, if there is one.
pub(crate) fn read(latches: &Latches, place: Place) -> Option<u32>
    requires { Low place }
    ensures { (cells : ℕ → ℕ) (stores : ℕ) → result ≡ latch place (latched latches.now cells stores) }
{
    match place {
        Place::Register(r) => Some(latches.registers[r as usize]),
        Place::CounterGreen => Some(latches.green),
        Place::CounterBlue => Some(latches.blue),
        Place::Destination => Some(latches.destination),
        Place::PairAddress(i) => latches.queue.get(i as usize).map(|pair| pair.address),
        Place::PairWord(i) => latches.queue.get(i as usize).map(|pair| pair.word),
    }
}

// Sets the latch at a place; where no such pair is queued, nothing changes.
pub(crate) fn write(latches: &mut Latches, place: Place, value: u32)
    requires { Low place }
    ensures { (cells : ℕ → ℕ) (stores : ℕ) → latched latches.new cells stores ≡ struck place value (latched latches.old cells stores) }
{
    match place {
        Place::Register(r) => latches.registers[r as usize] = value,
        Place::CounterGreen => latches.green = value,
        Place::CounterBlue => latches.blue = value,
        Place::Destination => latches.destination = value,
        Place::PairAddress(i) => change(
            &mut latches.queue,
            i as usize,
            |pair| Pair {
                address: value,
                ..pair
            },
        ),
        Place::PairWord(i) => change(
            &mut latches.queue,
            i as usize,
            |pair| Pair {
                word: value,
                ..pair
            },
        ),
    }
}

// Changes pair `at`, if there is such a pair.
fn change<F: FnOnce(Pair) -> Pair>(queue: &mut Queue, at: usize, to: F)
    requires { F.IsAlwaysCallable to }
    ensures { ChangesPair (F.post to) (slice_get (queued queue.old) at) at (queued queue.old) (queued queue.new) }
{
    if let Some(pair) = queue.get(at) {
        queue.set(at, to(pair));
    }
}
