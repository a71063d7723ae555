// Which texts and outputs are at fault by their lengths, and which plans by their widths or sizes.
ghost use Rattle.std.specs.Prelude.{◌≡◌, ◌<◌, ◌≤◌, ◌||◌, List, ◌∷◌, ◌++◌, length, nat_lt, vec_len};
ghost use Rattle.std.specs.Option.{option_or};
ghost use Rattle.plan.specs.declared.tree.Expression.{Expression as Part};
ghost use Rattle.plan.specs.Plans.{needed};
ghost use Rattle.plan.specs.Tables.{roots, parts, all_parts};
ghost use Rattle.compiler.specs.Widths.{first_wide, widest_of};

use isa::limits::{INSTRUCTIONS, MODULE_WORDS};
use plan::limits::TEXT;
use plan::tables::Plan;
use plan::tree::{Expression, Statement};

// The widest expression that the twins for values in between can hold.
const WIDTH: u32 = 5;
// REPEATs of a plan: each makes two blocks.
const REPEATS: u32 = 31;

// Whether a text has more bytes than allowed.
pub(crate) fn too_long(text: &[u8]) -> bool
    ensures { result ≡ nat_lt 8192 (length text.now) }
{
    text.len() > TEXT
}

// Whether an output has no room for the largest module.
pub(crate) fn too_short(room: usize) -> bool
    ensures { result ≡ nat_lt room 2626 }
{
    room < MODULE_WORDS
}

// The byte at which an expression begins, if it is too wide.
fn wide(widths: &[u32], e: Expression) -> Option<usize>
    requires { e.root.index < length widths.now }
    ensures { (rest : List Part) → first_wide widths.now (e ∷ rest) ≡ option_or result (first_wide widths.now rest) }
{
    (widths[e.root.index] > WIDTH).then_some(e.place)
}

// The first expression of a statement that is too wide; an address comes before its word.
// Stays (2): no plainer: one takes the first of a statement's expressions, `widest_part` the largest; a
// list of them would be made for both.
fn wide_part(widths: &[u32], statement: Statement) -> Option<usize>
    requires { roots statement ≤ length widths.now }
    ensures { (rest : List Part) → first_wide widths.now (parts statement ++ rest) ≡ option_or result (first_wide widths.now rest) }
{
    match statement {
        Statement::Let(_, e) | Statement::Repeat { count: e, body: _ } => wide(widths, e),
        Statement::Put(address, word) => wide(widths, address).or(wide(widths, word)),
        Statement::End { body: _ } => None,
    }
}

// The first expression of a plan that is too wide, by the byte at which it begins.
// Stays (3): tried `find_map`: the proof didn't close; left were that its closure may be called with each
// statement, and that what is found is the first.
pub(crate) fn first_wide(widths: &[u32], plan: &Plan) -> Option<usize>
    requires { length widths.now ≡ vec_len plan.now.nodes }
    ensures { result ≡ first_wide widths.now (all_parts plan.now.statements.items) }
{
    for &statement in plan.statements() {
        if let Some(place) = wide_part(widths, statement) {
            return Some(place);
        }
    }
    None
}

// The largest width of a statement's expressions.
// Stays (2): no plainer: `wide_part` takes the first of them, this one the largest; a list of them would
// be made for both.
fn widest_part(widths: &[u32], statement: Statement) -> u32
    requires { roots statement ≤ length widths.now }
    ensures { result ≡ widest_of widths.now (parts statement) }
{
    match statement {
        Statement::Let(_, e) | Statement::Repeat { count: e, body: _ } => widths[e.root.index],
        Statement::Put(address, word) => widths[address.root.index].max(widths[word.root.index]),
        Statement::End { body: _ } => 0,
    }
}

// The largest width of a plan's expressions.
// Stays (3): tried `map` and `max`: the proof didn't close; left were what `max` requires, and that its
// answer is the largest.
pub(crate) fn widest(widths: &[u32], plan: &Plan) -> u32
    requires { length widths.now ≡ vec_len plan.now.nodes }
    ensures { result ≡ widest_of widths.now (all_parts plan.now.statements.items) }
{
    let mut most = 0u32;
    for &statement in plan.statements() {
        most = most.max(widest_part(widths, statement));
    }
    most
}

// Whether a plan needs too many instructions, or has too many REPEATs.
pub(crate) fn too_large(plan: &Plan) -> bool
    ensures { result ≡ (nat_lt 1024 (needed plan.now) || nat_lt 31 plan.now.repeats) }
{
    plan.need() > INSTRUCTIONS || plan.repeats() > REPEATS
}
