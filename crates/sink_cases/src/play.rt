// A line of a script played on a sink, with the answer in words.
use crate::form::{inst, number, word};
use a64::inst::Inst;
use codec::encode;
use notes::{Note, inst_from};
use refusal::Refusal;
use sink::sink::{Counts, Sink};
use std::alloc::{AllocError, Global};

fn refused(heap: Global, e: Refusal) -> Result<String, AllocError> {
    let number = e.cause.number();
    let layer = e.layer.number();
    let place = e.place;
    format!(in heap; "= refused {number} {layer} {place}")
}

// A refusal is an answer here, so no `?`.
fn done(heap: Global, r: Result<(), Refusal>) -> Result<String, AllocError> {
    match r {
        Ok(_) => String::from_str(heap, "= ok"),
        Err(e) => refused(heap, e),
    }
}

fn told_inst(heap: Global, r: Result<Inst, Refusal>) -> Result<String, AllocError> {
    match r.and_then(encode) {
        Ok(w) => format!(in heap; "= ins {w:08X}"),
        Err(e) => refused(heap, e),
    }
}

fn told_note(heap: Global, r: Result<Note, Refusal>) -> Result<String, AllocError> {
    match r.map(<[u32; 3]>::try_from) {
        Ok(Ok(words)) => {
            let [first, a, b] = words;
            format!(in heap; "= note {first} {a} {b}")
        }
        Ok(Err(_)) => String::from_str(heap, "= note"),
        Err(e) => refused(heap, e),
    }
}

// The sink's answer to a line.
pub(crate) fn play<S: Sink>(heap: Global, sink: &mut S, line: &str) -> Result<String, AllocError> {
    match word(line, 0) {
        "put" => done(heap, sink.put_inst(inst(line))),
        "putnote" => done(
            heap,
            sink.put_note(inst_from(number(line, 1), number(line, 2), number(line, 3))),
        ),
        "read" => told_inst(heap, sink.inst_at(number(line, 1))),
        "note" => told_note(heap, sink.note_at(number(line, 1))),
        "rewind" => done(heap, sink.rewind(number(line, 1), number(line, 2))),
        _ => {
            let Counts { insts, notes, room } = sink.counts();
            format!(in heap; "= counts {insts} {notes} {room}")
        }
    }
}
