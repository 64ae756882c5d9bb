// A whole book: each function with a picture of its frame, its code and its notes.
use crate::code::write_note;
use crate::picture;
use asm::Asm;
use book::book::Book;
use codec::encode;
use layout::compute_frame_layout;
use shelf::entry::Entry;
use shelf::shelf::FUNCTION_COUNT;
use sink::sink::{Counts, Sink};
use std::io;
use std::io::Write;
use std::ops::Range;

// The places of a function's instructions in the book.
pub fn insts_of(e: &Entry) -> Range<usize> {
    let count = e.prologue.saturating_add(e.body).saturating_add(e.epilogue);
    e.start..e.start.saturating_add(count)
}

// The places of its notes.
pub fn notes_of(e: &Entry) -> Range<usize> {
    e.notes_start..e.notes_start.saturating_add(e.notes)
}

fn show_insts<S: Sink>(
    out: &mut impl Write,
    book: &Book<S>,
    places: Range<usize>,
) -> io::Result<()> {
    for at in places {
        if let Ok(i) = book.inst_at(at)
            && let Ok(w) = encode(i)
        {
            let text = Asm(i);
            writeln!(out, "{at:>6} {w:08X} {text}")?;
        }
    }
    Ok(())
}

fn show_notes<S: Sink>(
    out: &mut impl Write,
    book: &Book<S>,
    places: Range<usize>,
) -> io::Result<()> {
    for at in places {
        if let Ok(note) = book.note_at(at) {
            write_note(out, note)?;
        }
    }
    Ok(())
}

fn show_function<S: Sink>(
    out: &mut impl Write,
    book: &Book<S>,
    slot: usize,
    e: Entry,
) -> io::Result<()> {
    let number = e.sheet.number;
    let prologue = e.prologue;
    let body = e.body;
    let epilogue = e.epilogue;
    let notes = e.notes;
    writeln!(
        out,
        "function {slot} number {number} prologue {prologue} body {body} epilogue {epilogue} notes {notes}"
    )?;
    write!(out, "frame ")?;
    picture(out, &compute_frame_layout(e.sheet))?;
    show_insts(out, book, insts_of(&e))?;
    show_notes(out, book, notes_of(&e))
}

pub fn show<S: Sink>(out: &mut impl Write, book: &Book<S>) -> io::Result<()> {
    let Counts { insts, notes, room } = book.counts();
    writeln!(out, "book instructions {insts} notes {notes} room {room}")?;
    // By slot, since it is printed.
    for slot in 0..FUNCTION_COUNT {
        if let Some(e) = book.entry_at(slot) {
            show_function(out, book, slot, e)?;
        }
    }
    Ok(())
}
