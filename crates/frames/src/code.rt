// What the pieces of a frame put on a word sink, in lines.
use crate::note_words::InWords;
use crate::stop::Stop;
use asm::Asm;
use emitter::Emitter;
use layout::{FrameLayout, compute_frame_layout};
use notes::Note;
use owned_sheet::OwnedSheet;
use refusal::Refusal;
use sheet::check::check;
use sink::sink::Sink;
use std::alloc::Global;
use std::io;
use std::io::Write;
use word_sink::WordSink;

// Room for the largest prologue: 60 instructions and 30 notes of three words.
const ROOM: usize = 256;

// The words, then the same as an assembler writes them.
fn write_code(out: &mut impl Write, name: &str, code: &[u32]) -> io::Result<()> {
    write!(out, "{name}")?;
    if code.is_empty() {
        return writeln!(out, " -");
    }
    for w in code {
        write!(out, " {w:08X}")?;
    }
    write!(out, " ;")?;
    for w in code {
        let text = Asm(codec::decode(*w));
        write!(out, " {text} .")?;
    }
    writeln!(out, "")
}

pub fn write_note(out: &mut impl Write, note: Note) -> io::Result<()> {
    let Ok(words) = <[u32; 3]>::try_from(note) else {
        return Ok(());
    };
    let [first, a, b] = words;
    let place = note.place;
    let what = InWords(note.inst);
    writeln!(
        out,
        "note {first} {a} {b} ; after instruction {place}: {what}"
    )
}

fn write_notes(out: &mut impl Write, sink: &WordSink) -> io::Result<()> {
    for i in 0..sink.note_count() {
        if let Ok(note) = sink.note_at(i) {
            write_note(out, note)?;
        }
    }
    Ok(())
}

// What the prologue and the epilogue of a frame put.
#[derive(Drop)]
struct Put {
    opening: WordSink,
    closing: WordSink,
}

fn put_both(heap: Global, l: &FrameLayout) -> Result<Put, Stop> {
    let mut emitter = Emitter::new();
    let mut opening = WordSink::new(heap, ROOM)?;
    let mut closing = WordSink::new(heap, ROOM)?;
    emitter.put_prologue(l, &mut opening)?;
    emitter.put_epilogue(l, &mut closing)?;
    Ok(Put { opening, closing })
}

// The prologue, the epilogue, and the notes.
pub fn write_frame(heap: Global, out: &mut impl Write, l: &FrameLayout) -> Result<(), Stop> {
    let put = put_both(heap, l)?;
    write_code(out, "prologue", put.opening.code())?;
    write_code(out, "epilogue", put.closing.code())?;
    write_notes(out, &put.opening)?;
    Ok(())
}

// What one piece puts.
pub(crate) fn write_piece<F: FnOnce(&mut Emitter, &mut WordSink) -> Result<(), Refusal>>(
    heap: Global,
    out: &mut impl Write,
    put: F,
) -> Result<(), Stop>
    requires { F.IsAlwaysCallable put }
{
    let mut sink = WordSink::new(heap, ROOM)?;
    put(&mut Emitter::new(), &mut sink)?;
    write_code(out, "code", sink.code())?;
    Ok(())
}

// How many instructions a prologue and an epilogue have, and how many notes.
#[derive(Clone, Copy)]
pub struct PieceCounts {
    pub prologue: usize,
    pub epilogue: usize,
    pub notes: usize,
}

// The counts of a sheet's frame.
pub fn counts_of(heap: Global, sheet: &OwnedSheet) -> Result<PieceCounts, Stop> {
    let put = put_both(heap, &compute_frame_layout(check(sheet.sheet())?))?;
    Ok(PieceCounts {
        prologue: put.opening.inst_count(),
        epilogue: put.closing.inst_count(),
        notes: put.opening.note_count(),
    })
}
