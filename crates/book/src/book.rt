// A book: functions on a sink that it owns, each listed with its place.
ghost use Rattle.std.specs.Prelude.{◌≡◌, ℕ, [], length, MatchResult, OnErr};
ghost use Rattle.plainbook.specs.Answers.{sheet_refusal};
ghost use Rattle.plainbook.specs.Claims.{AllClaimed, Shown};
ghost use Rattle.plainbook.specs.Plain.{fun, grown, meant, plain_add, plain_look_up, plain_withdraw, read_at, why_not, withdrawn};
ghost use Rattle.plainbook.specs.Refusals.{said};
ghost use Rattle.plainbook.specs.Stands.{Moves, Stands, entry_of, fed, plain_entry};
ghost use Rattle.frame.specs.Pieces.{epilogue as epilogue_of, prologue as prologue_of};
ghost use Rattle.refusal.specs.Told.{Answers};
ghost use Rattle.sheet.specs.Checks.{plain};
ghost use Rattle.sheet.specs.Plain.{plain_of};
ghost use Rattle.shelf.specs.Listed.{listed};
ghost use Rattle.shelf.specs.Slots.{item_at, numbers_of};
ghost use Rattle.sink.specs.Held.{counts_of};

use crate::items::items_of;
use crate::limits::{count_items, past, refusal};
use crate::puts::put_function;
use a64::inst::Inst;
use frame::piece::Piece;
use layout::compute_frame_layout;
use notes::Note;
use refusal::{Cause, Refusal};
use sheet::check::check;
use sheet::checked::CheckedSheet;
use sheet::types::Sheet;
use shelf::entry::Entry;
use shelf::shelf::{FUNCTION_COUNT, Shelf};
use sink::item::Item;
use sink::price::Price;
use sink::readable::Readable;
use sink::sink::{Counts, Priced, Sink, no_room};
use std::alloc::{AllocFailed, Global};

#[derive(Drop)]
pub struct Book<S: Sink> {
    pub(crate) sink: S,
    pub(crate) shelf: Shelf,
}

// The premise stands in each contract: a word for it would take the same five arguments.
impl<S: Sink> Book<S> {
    // The slot of a function number.
    pub fn look_up(&self, number: u32) -> Option<usize>
        ensures { (k : ℕ) (fs : _) → Stands ⟦<S as Priced>⟧.prices k (S.held self.now.sink) (listed self.now.shelf) fs → result ≡ plain_look_up fs number }
    {
        self.shelf.slot_of(number)
    }

    pub fn inst_at(&self, i: usize) -> Result<Inst, Refusal>
        ensures { let p = ⟦<S as Priced>⟧.prices in (k : ℕ) (fs : _) → Stands p k (S.held self.now.sink) (listed self.now.shelf) fs → said result ≡ read_at (meant p k fs).insts i }
    {
        self.sink.inst_at(i)
    }

    pub fn note_at(&self, i: usize) -> Result<Note, Refusal>
        ensures { let p = ⟦<S as Priced>⟧.prices in (k : ℕ) (fs : _) → Stands p k (S.held self.now.sink) (listed self.now.shelf) fs → said result ≡ read_at (meant p k fs).notes i }
    {
        self.sink.note_at(i)
    }

    // How many instructions and notes there are, and the room.
    pub fn counts(&self) -> Counts
        ensures { let p = ⟦<S as Priced>⟧.prices in (k : ℕ) (fs : _) → Stands p k (S.held self.now.sink) (listed self.now.shelf) fs → result ≡ counts_of (meant p k fs) }
    {
        self.sink.counts()
    }

    // What the function at a slot is listed as.
    pub fn entry_at(&self, slot: usize) -> Option<Entry>
        ensures { (k : ℕ) (fs : _) → Stands ⟦<S as Priced>⟧.prices k (S.held self.now.sink) (listed self.now.shelf) fs → Shown (S.held self.now.sink) (item_at fs slot) result }
    {
        self.shelf.entry_at(slot)
    }

    // The sink, to be read.
    pub fn sink(&self) -> &S
        ensures { result.now ≡ self.now.sink }
    {
        &self.sink
    }

    // Drops the last function, and answers its number.
    pub fn withdraw(&mut self) -> Result<u32, Refusal>
        ensures moves { Moves ⟦<S as Priced>⟧.prices (S.held self.old.sink) (listed self.old.shelf) (S.held self.new.sink) (listed self.new.shelf) (λ k fs. plain_withdraw fs) (λ k fs. withdrawn fs) (said result) }
        ensures refused { OnErr result ((S.held self.new.sink ≡ S.held self.old.sink) × (listed self.new.shelf ≡ listed self.old.shelf)) }
        ensures claims { (k : ℕ) (fs : _) → Stands ⟦<S as Priced>⟧.prices k (S.held self.new.sink) (listed self.new.shelf) fs → AllClaimed (S.held self.new.sink) fs }
    {
        let Some(last) = self.shelf.last() else {
            return Err(refusal(Cause::EmptyBook, 0));
        };
        self.sink.rewind(last.start, last.notes_start)?;
        self.shelf.cut_last();
        Ok(last.sheet.number)
    }

    // What a new function would be listed as, or why it is refused. Nothing is put.
    fn admit(
        &self,
        sheet: CheckedSheet,
        prologue: &[Item],
        body: &[u32],
        epilogue: &[Item],
    ) -> Result<Entry, Refusal>
        requires prologue_value { prologue.now ≡ prologue_of (plain sheet) }
        requires epilogue_value { epilogue.now ≡ epilogue_of (plain sheet) }
        ensures { Answers (why_not ⟦<S as Priced>⟧.prices (S.held self.now.sink) (numbers_of (listed self.now.shelf)) (fun (plain sheet) body.now)) (λ e. plain_entry e ≡ entry_of (length (S.held self.now.sink).insts) (length (S.held self.now.sink).notes) (fun (plain sheet) body.now)) (Unit {0}) result }
    {
        if let Some(slot) = self.shelf.slot_of(sheet.number) {
            return Err(refusal(Cause::NumberHeld, slot));
        }
        if self.shelf.len() >= FUNCTION_COUNT {
            return Err(refusal(Cause::TooMany, 0));
        }
        let opening = count_items(prologue);
        let closing = count_items(epilogue);
        let sink = &self.sink;
        let held = sink.counts();
        if past(held.insts, opening.insts, body.len(), closing.insts) {
            return Err(refusal(Cause::TooMany, 0));
        }
        if past(held.notes, opening.notes, 0, closing.notes) {
            return Err(refusal(Cause::TooMany, 0));
        }
        let insts = opening.insts + body.len() + closing.insts;
        let notes = opening.notes + closing.notes;
        let price = S::INST_PRICE.value() as usize * insts + S::NOTE_PRICE.value() as usize * notes;
        if price > held.room {
            return Err(no_room(held.room));
        }
        Ok(Entry {
            sheet,
            start: held.insts,
            notes_start: held.notes,
            prologue: opening.insts,
            body: body.len(),
            epilogue: closing.insts,
            notes,
        })
    }

    // Puts a function's prologue, body words and epilogue, lists it, and answers its slot.
    pub fn add(&mut self, sheet: Sheet<'_>, body: &[u32]) -> Result<usize, Refusal>
        ensures moves { let p = ⟦<S as Priced>⟧.prices in let f = fun (plain_of sheet.entry) body.now in Moves p (S.held self.old.sink) (listed self.old.shelf) (S.held self.new.sink) (listed self.new.shelf) (λ k fs. plain_add p k fs (sheet_refusal sheet.entry) f) (λ k fs. grown fs f (plain_add p k fs (sheet_refusal sheet.entry) f)) (said result) }
        ensures refused { OnErr result ((S.held self.new.sink ≡ S.held self.old.sink) × (listed self.new.shelf ≡ listed self.old.shelf)) }
        ensures claims { (k : ℕ) (fs : _) → Stands ⟦<S as Priced>⟧.prices k (S.held self.new.sink) (listed self.new.shelf) fs → AllClaimed (S.held self.new.sink) fs }
    {
        let checked = check(sheet)?;
        let layout = compute_frame_layout(checked);
        let prologue = items_of(Piece::Prologue, &layout);
        let epilogue = items_of(Piece::Epilogue, &layout);
        let entry = self.admit(checked, prologue.as_slice(), body, epilogue.as_slice())?;
        let slot = self.shelf.len();
        put_function(
            &mut self.sink,
            Readable {
                items: prologue.as_slice(),
            },
            body,
            Readable {
                items: epilogue.as_slice(),
            },
        )?;
        // There is a place for it: fewer than FUNCTION_COUNT are listed.
        let _ = self.shelf.push(entry);
        Ok(slot)
    }
}

impl<S: Sink + Drop> Book<S> {
    // A book with nothing in it, over a sink that is rewound to nothing. Want of memory hands the sink back.
    pub fn new(heap: Global, sink: S) -> Result<Book<S>, AllocFailed<S>>
        ensures { let p = ⟦<S as Priced>⟧.prices in MatchResult result (λ b. Stands p (fed p (S.held sink)) (S.held b.sink) (listed b.shelf) []) (λ e. e.value ≡ sink) }
    {
        let Ok(shelf) = Shelf::new(heap) else {
            return Err(AllocFailed { value: sink });
        };
        let mut own = sink;
        // Nothing is beyond a rewind to nothing.
        let _ = own.rewind(0, 0);
        Ok(Book { sink: own, shelf })
    }
}
