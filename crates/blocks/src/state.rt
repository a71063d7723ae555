// What the check of a block knows before an instruction.
ghost use Rattle.std.specs.Prelude.{◌≤◌, vec_len, vec_capacity};
ghost use Rattle.rules.specs.Limits.{in_force};
ghost use Rattle.blocks.specs.Reach.{NotesBelow, PairsBelow, reach_dest};

use crate::note::{Destination, Pair};
use crate::notes::Notes;
use crate::table::Table;

// `green` and `blue` are the numbers of stores that each colour has made since the block's start.
#[derive(Drop)]
pub struct State {
    table: Table,
    notes: Notes,
    pending: Vec<Pair>,
    green: u32,
    blue: u32,
    destination: Destination,
    ghost room: { in_force.queue ≤ vec_capacity pending },
    ghost noted: { NotesBelow (vec_len table.nodes) notes.all.items },
    ghost queued: { PairsBelow (vec_len table.nodes) pending.items },
    ghost bound: { reach_dest destination ≤ vec_len table.nodes },
}

mod block;
mod cards;
mod judge;
mod kinds;
mod sharing;
