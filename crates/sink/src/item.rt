// Lists of items, put on a sink whole or not at all.
ghost use Rattle.std.specs.Prelude.{◌≡◌, ◌<◌, ◌≤◌, MatchResult, nat_le};
ghost use Rattle.codec.specs.Unread.{unread};
ghost use Rattle.refusal.specs.Told.{told};
ghost use Rattle.sink.specs.Items.{AllRead, PutItems, PutPiece, cost_of, with_items};

use crate::price::Price;
use crate::readable::Readable;
use crate::sink::{Priced, Sink, no_room};
use a64::inst::Inst;
use codec::encode;
use notes::UnwindInst;
use refusal::Refusal;

// An instruction or a note.
#[derive(Clone, Copy)]
pub enum Item {
    Inst(Inst),
    Note(UnwindInst),
}

// Refuses the items where an instruction is no word's reading.
fn readable(items: &[Item]) -> Result<(), Refusal>
    ensures { MatchResult result (λ _. AllRead items.now) (λ e. (AllRead items.now → ⊥) × (told e ≡ unread)) }
{
    for item in items {
        if let Item::Inst(x) = item {
            encode(*x)?;
        }
    }
    Ok(())
}

// Whether the items' whole price is within the room.
fn affordable(items: &[Item], inst: u32, note: u32, room: usize) -> bool
    ensures { result ≡ nat_le (cost_of (record { inst = inst; note = note }) items.now) room }
{
    let mut left = room;
    for item in items {
        let price = match item {
            Item::Inst(_) => inst as usize,
            Item::Note(_) => note as usize,
        };
        if price > left {
            return false;
        }
        left -= price;
    }
    true
}

// Puts the items one by one, where none is refused.
fn put_all<S: Sink>(sink: &mut S, items: &[Item]) -> Result<(), Refusal>
    requires read { ∥ AllRead items.now ∥₁ }
    requires bound { cost_of ⟦<S as Priced>⟧.prices items.now ≤ (S.held sink.old).room }
    ensures { MatchResult result (λ _. S.held sink.new ≡ with_items ⟦<S as Priced>⟧.prices (S.held sink.old) items.now) (λ _. ⊥) }
{
    for item in items {
        match item {
            Item::Inst(x) => sink.put_inst(*x)?,
            Item::Note(x) => sink.put_note(*x)?,
        }
    }
    Ok(())
}

// Puts readable items in order, or none of them: the whole price is tried against the room first.
pub fn put_readable<S: Sink>(sink: &mut S, list: Readable<'_>) -> Result<(), Refusal>
    ensures { PutPiece ⟦<S as Priced>⟧.prices (S.held sink.old) list.entry.items.now (S.held sink.new) result }
{
    let room = sink.room();
    let items = list.items;
    if affordable(items, S::INST_PRICE.value(), S::NOTE_PRICE.value(), room) {
        put_all(sink, items)
    } else {
        Err(no_room(room))
    }
}

// Puts the items in order, or none of them: each instruction is tried first, then the whole price against the room.
pub fn put_items<S: Sink>(sink: &mut S, items: &[Item]) -> Result<(), Refusal>
    ensures { PutItems ⟦<S as Priced>⟧.prices (S.held sink.old) items.now (S.held sink.new) result }
{
    readable(items)?;
    put_readable(sink, Readable { items })
}
