// What a book's list and its items may come to.
ghost use Rattle.std.specs.Prelude.{◌≡◌, ◌+◌, length, nat_lt};
ghost use Rattle.plainbook.specs.Limits.{item_limit};
ghost use Rattle.refusal.specs.Told.{number, told};
ghost use Rattle.sink.specs.Items.{insts_in, marks_in};

use refusal::{Cause, Layer, Refusal};
use sink::item::Item;

// No book holds more instructions, nor more notes.
pub(crate) const ITEM_LIMIT: usize = 65535;

// A refusal of a book. Each layer has such a function of its own: the struct alone would be as long.
pub(crate) fn refusal(cause: Cause, place: usize) -> Refusal
    ensures { told result ≡ record { number = number cause; layer = 3; place = place } }
{
    Refusal {
        cause,
        layer: Layer::Book,
        place: place as u64,
    }
}

// Whether four counts pass the limit together.
pub(crate) fn past(held: usize, first: usize, second: usize, third: usize) -> bool
    ensures { result ≡ nat_lt item_limit (held + (first + (second + third))) }
{
    held.saturating_add(first)
        .saturating_add(second)
        .saturating_add(third)
        > ITEM_LIMIT
}

// How many instructions and how many notes. Not a sink's `Counts`: there is no room to tell.
#[derive(Clone, Copy)]
pub(crate) struct Tally {
    pub insts: usize,
    pub notes: usize,
}

pub(crate) fn count_items(items: &[Item]) -> Tally
    ensures insts { result.insts ≡ length (insts_in items.now) }
    ensures notes { result.notes ≡ marks_in items.now }
{
    let insts = items
        .iter()
        .filter(|item| matches!(**item, Item::Inst(_)))
        .count();
    Tally {
        insts,
        notes: items.len() - insts,
    }
}
