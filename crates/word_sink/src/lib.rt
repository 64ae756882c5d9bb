// The word sink: cells of its own, code words from the front and notes of three words from the back.
// Two counts beside the cells, since both ends grow.
#![tactic(auto)]

ghost use Rattle.std.specs.Prelude.{◌+◌, ◌*◌, ◌≤◌, vec_len};
ghost use Rattle.sink.specs.Held.{most};

pub mod methods;

#[derive(Drop)]
pub struct WordSink {
    words: Vec<u32>,
    insts: usize,
    notes: usize,
    ghost small: { vec_len words ≤ most },
    ghost fit: { insts + 3 * notes ≤ vec_len words },
}
