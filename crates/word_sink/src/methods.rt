// Making a word sink, and its calls: prices 1 and 3.
ghost use Rattle.std.specs.Prelude.{◌≡◌, ℕ, ◌+◌, ◌-◌, ◌*◌, ◌<◌, ◌≤◌, map, take, IfOk, vec_len};
ghost use Rattle.decoder.specs.Reading.{reading};
ghost use Rattle.word_sink.specs.Cells.{InstCells, NoteCells, cells_of, note_base, note_of, notes_of, word_held};
ghost use Rattle.sink.specs.Held.{PutInst, PutNote, Rewind, fresh, stray};

use crate::WordSink;
use a64::inst::Inst;
use codec::{decode, encode};
use notes::{Note, Parts, UnwindInst, note_from};
use refusal::Refusal;
use sink::price::Units;
use sink::sink::{MOST, Sink, no_room, not_held};
use std::alloc::{AllocError, Global};

impl WordSink {
    // An empty sink of this length, or want of memory.
    pub fn new(heap: Global, len: usize) -> Result<WordSink, AllocError>
        ensures { IfOk result (λ s. word_held s ≡ fresh len) }
    {
        let words = vec![in heap; 0; len.min(MOST)]?;
        Ok(WordSink {
            words,
            insts: 0,
            notes: 0,
        })
    }

    // The code words, for copying to where they run.
    pub fn code(&self) -> &[u32]
        ensures words { result.now ≡ take self.now.insts (cells_of self.now) }
        ensures readings { map reading result.now ≡ (word_held self.now).insts }
    {
        &self.words[..self.insts]
    }

    // The first cell of note k.
    fn base(&self, k: usize) -> usize
        requires { 3 * (k + 1) ≤ vec_len self.now.words }
        ensures { result ≡ note_base (vec_len self.now.words) k }
    {
        self.words.len() - 3 * (k + 1)
    }

    // The place of note k.
    fn place(&self, k: usize) -> usize
        requires { k < self.now.notes }
        ensures { result ≡ (note_of (vec_len self.now.words) self.now.words.items k).place }
    {
        (self.words[self.base(k)] / 256) as usize
    }

    // The index of the first of the first n notes whose place is above i.
    fn first_stray(&self, i: usize, n: usize) -> Option<usize>
        requires { n ≤ self.now.notes }
        ensures { result ≡ stray i 0 (notes_of (vec_len self.now.words) self.now.words.items n) }
    {
        // Not `(0..n).position(..)`: tried, and the proof of what it answers did not close.
        for k in 0..n {
            if self.place(k) > i {
                return Some(k);
            }
        }
        None
    }
}

impl Sink for WordSink {
    type InstPrice = Units<1>;

    type NotePrice = Units<3>;

    const INST_PRICE: Units<1> = Units {};

    const NOTE_PRICE: Units<3> = Units {};

    ghost held = { word_held };

    fn room(&self) -> usize {
        self.words.len() - (self.insts + 3 * self.notes)
    }

    fn inst_count(&self) -> usize {
        self.insts
    }

    fn note_count(&self) -> usize {
        self.notes
    }

    fn inst_at(&self, i: usize) -> Result<Inst, Refusal> {
        self.code()
            .get(i)
            .map(|word| decode(*word))
            .ok_or(not_held(i))
    }

    fn note_at(&self, i: usize) -> Result<Note, Refusal> {
        if i < self.notes {
            let base = self.base(i);
            let first = self.words[base];
            let a = self.words[base + 1];
            let b = self.words[base + 2];
            Ok(note_from(first, a, b))
        } else {
            Err(not_held(i))
        }
    }

    fn put_inst(&mut self, x: Inst) -> Result<(), Refusal>
        ensures put { PutInst 1 (word_held self.old) x (word_held self.new) result }
        ensures cells { InstCells self.old x self.new result }
    {
        let word = encode(x)?;
        let room = self.room();
        if room < 1 {
            return Err(no_room(room));
        }
        self.words[self.insts] = word;
        self.insts += 1;
        Ok(())
    }

    fn put_note(&mut self, x: UnwindInst) -> Result<(), Refusal>
        ensures put { PutNote 3 (word_held self.old) x (word_held self.new) result }
        ensures cells { NoteCells self.old x self.new result }
    {
        let room = self.room();
        if room < 3 {
            return Err(no_room(room));
        }
        let base = self.base(self.notes);
        let place = self.insts as u32;
        let parts = Parts::from(x);
        self.words[base] = parts.kind + 256 * place;
        self.words[base + 1] = parts.a;
        self.words[base + 2] = parts.b;
        self.notes += 1;
        Ok(())
    }

    // The three tests are the record sink's too: a function for them would take each sink's own notes.
    fn rewind(&mut self, i: usize, n: usize) -> Result<(), Refusal>
        ensures answer { Rewind (record { inst = 1; note = 3 }) (word_held self.old) i n (word_held self.new) result }
        ensures cells { cells_of self.new ≡ cells_of self.old }
    {
        if i > self.insts {
            return Err(not_held(i));
        }
        if n > self.notes {
            return Err(not_held(n));
        }
        if let Some(k) = self.first_stray(i, n) {
            return Err(not_held(k));
        }
        self.insts = i;
        self.notes = n;
        Ok(())
    }
}
