// Making a record sink, and its calls.
ghost use Rattle.std.specs.Prelude.{◌≡◌, ℕ, ◌+◌, ◌-◌, ◌*◌, ◌<◌, ◌≤◌, IfOk};
ghost use Rattle.sink.specs.Held.{fresh};
ghost use Rattle.record_sink.specs.Records.{record_held};

use crate::Records;
use a64::inst::Inst;
use codec::encode;
use notes::{Note, UnwindInst};
use refusal::Refusal;
use sink::price::{Fixed, Price, Units};
use sink::sink::{Counts, MOST, Sink, first_stray, no_room, not_held};
use std::alloc::{AllocError, Global};

impl<const INST: u32, const NOTE: u32> Records<INST, NOTE> {
    // An empty sink of this length, or want of memory.
    pub fn new(heap: Global, len: usize) -> Result<Records<INST, NOTE>, AllocError>
        ensures { IfOk result (λ s. record_held s ≡ fresh len) }
    {
        let room = len.min(MOST);
        let insts = Vec::with_capacity(heap, room)?;
        let notes = Vec::with_capacity(heap, room)?;
        Ok(Records { insts, notes, room })
    }
}

impl<const INST: u32, const NOTE: u32> Sink for Records<INST, NOTE>
where
    Units<INST>: Fixed,
    Units<NOTE>: Fixed,
{
    type InstPrice = Units<INST>;

    type NotePrice = Units<NOTE>;

    const INST_PRICE: Units<INST> = Units::<INST>::VALUE;

    const NOTE_PRICE: Units<NOTE> = Units::<NOTE>::VALUE;

    ghost held = { record_held };

    fn room(&self) -> usize {
        self.room
    }

    fn inst_count(&self) -> usize {
        self.insts.len()
    }

    fn note_count(&self) -> usize {
        self.notes.len()
    }

    fn inst_at(&self, i: usize) -> Result<Inst, Refusal> {
        self.insts.get(i).copied().ok_or(not_held(i))
    }

    fn note_at(&self, i: usize) -> Result<Note, Refusal> {
        self.notes.get(i).copied().ok_or(not_held(i))
    }

    fn put_inst(&mut self, x: Inst) -> Result<(), Refusal> {
        encode(x)?;
        let price = Self::INST_PRICE.value() as usize;
        if self.room < price {
            return Err(no_room(self.room));
        }
        self.insts.push_reserved(x);
        self.room -= price;
        Ok(())
    }

    fn put_note(&mut self, x: UnwindInst) -> Result<(), Refusal> {
        let price = Self::NOTE_PRICE.value() as usize;
        if self.room < price {
            return Err(no_room(self.room));
        }
        let place = self.insts.len() as u32;
        self.notes.push_reserved(Note { place, inst: x });
        self.room -= price;
        Ok(())
    }

    fn rewind(&mut self, i: usize, n: usize) -> Result<(), Refusal> {
        let insts = self.insts.len();
        let notes = self.notes.len();
        if i > insts {
            return Err(not_held(i));
        }
        if n > notes {
            return Err(not_held(n));
        }
        if let Some(k) = first_stray(&self.notes[..n], i) {
            return Err(not_held(k));
        }
        self.insts.truncate(i);
        self.notes.truncate(n);
        let inst_price = Self::INST_PRICE.value() as usize;
        let note_price = Self::NOTE_PRICE.value() as usize;
        self.room += inst_price * (insts - i) + note_price * (notes - n);
        Ok(())
    }
}
