// The record sink: it keeps its items as they are, in memory that was taken when it was made.
#![tactic(auto)]

ghost use Rattle.std.specs.Prelude.{◌+◌, ◌*◌, ◌≤◌, vec_len, vec_capacity};
ghost use Rattle.sink.specs.Held.{most};

use a64::inst::Inst;
use notes::Note;

pub mod methods;

// A record sink at these two prices, of an instruction and of a note.
#[derive(Drop)]
pub struct Records<const INST: u32, const NOTE: u32> {
    insts: Vec<Inst>,
    notes: Vec<Note>,
    room: usize,
    ghost few: { vec_len insts ≤ most },
    ghost small: { INST * vec_len insts + NOTE * vec_len notes + room ≤ most },
    ghost insts_fit: { INST * vec_len insts + NOTE * vec_len notes + room ≤ vec_capacity insts },
    ghost notes_fit: { INST * vec_len insts + NOTE * vec_len notes + room ≤ vec_capacity notes },
}

pub type RecordSink = Records<1, 1>;
