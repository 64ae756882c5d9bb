// A sink: a list of instructions, a list of notes and its room, with a price for each kind.
ghost use Rattle.std.specs.Prelude.{◌≡◌, ℕ, length};
ghost use Rattle.sink.specs.Held.{Held, Prices, PutInst, PutNote, Read, Rewind, beyond, counts_of, no_room_of, stray};
ghost use Rattle.refusal.specs.Told.{told};

use crate::price::Price;
use a64::inst::Inst;
use notes::{Note, UnwindInst};
use refusal::{Cause, Layer, Refusal};

// No sink is larger.
pub const MOST: usize = 1048576;

// Both lengths and the room.
#[derive(Clone, Copy)]
pub struct Counts {
    pub insts: usize,
    pub notes: usize,
    pub room: usize,
}

// Two refusals, as each is another definition. The refusal of a price above the room.
pub fn no_room(room: usize) -> Refusal
    ensures { told result ≡ no_room_of room }
{
    Refusal {
        cause: Cause::NoRoom,
        layer: Layer::Sink,
        place: room as u64,
    }
}

// The refusal of a read or a rewind beyond what is held.
pub fn not_held(i: usize) -> Refusal
    ensures { told result ≡ beyond i }
{
    Refusal {
        cause: Cause::NotHeld,
        layer: Layer::Sink,
        place: i as u64,
    }
}

// The index of the first note whose place is above i.
pub fn first_stray(notes: &[Note], i: usize) -> Option<usize>
    ensures { result ≡ stray i 0 notes.now }
{
    notes.iter().position(|note| note.place as usize > i)
}

pub trait Sink {
    // The prices, as types, so that contracts can name them.
    type InstPrice: Price + Drop;

    type NotePrice: Price + Drop;

    // What an instruction takes of the room, and what a note takes.
    const INST_PRICE: Self::InstPrice;

    const NOTE_PRICE: Self::NotePrice;

    // What the sink means.
    ghost held: { Self → Held };

    fn room(&self) -> usize
        ensures { result ≡ (held self.now).room };

    fn inst_count(&self) -> usize
        ensures { result ≡ length (held self.now).insts };

    fn note_count(&self) -> usize
        ensures { result ≡ length (held self.now).notes };

    fn counts(&self) -> Counts
        ensures { result ≡ counts_of (held self.now) }
    {
        Counts {
            insts: self.inst_count(),
            notes: self.note_count(),
            room: self.room(),
        }
    }

    // The instruction at an index, and the note at one.
    fn inst_at(&self, i: usize) -> Result<Inst, Refusal>
        ensures { Read (held self.now).insts i result };

    fn note_at(&self, i: usize) -> Result<Note, Refusal>
        ensures { Read (held self.now).notes i result };

    // Appends an instruction and takes its price.
    fn put_inst(&mut self, x: Inst) -> Result<(), Refusal>
        ensures { PutInst Self.InstPrice.Price.units (held self.old) x (held self.new) result };

    // Appends a note, placed by the instructions before it, and takes its price.
    fn put_note(&mut self, x: UnwindInst) -> Result<(), Refusal>
        ensures { PutNote Self.NotePrice.Price.units (held self.old) x (held self.new) result };

    // Keeps the first i instructions and the first n notes, and gives back the price of the rest.
    fn rewind(&mut self, i: usize, n: usize) -> Result<(), Refusal>
        ensures { Rewind ⟦<Self as Priced>⟧.prices (held self.old) i n (held self.new) result };
}

// The prices of a sink as one record, which contracts name.
pub trait Priced {
    ghost prices: { Prices };
}

impl<S: Sink> Priced for S {
    ghost prices = { record { inst = S.InstPrice.Price.units; note = S.NotePrice.Price.units } };
}
