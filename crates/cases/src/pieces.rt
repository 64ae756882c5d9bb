// Cases of frames: what a piece puts on a word sink, word by word.
use crate::line::{Miss, hold, next, next32};
use crate::sheets::with_layout;
use emitter::Emitter;
use layout::FrameLayout;
use numerals::number::{code_word, signed};
use refusal::Refusal;
use sink::sink::Sink;
use std::alloc::Global;
use text::words::Words;
use word_sink::WordSink;

// Room for the largest prologue: 60 instructions and 30 notes of three words.
const ROOM: usize = 256;

// The words that are left on the line are these, or a lone `-` where there are none.
fn same_code(code: &[u32], words: &mut Words<'_>) -> Result<(), Miss> {
    if code.is_empty() {
        hold(matches!(next(words)?, b"-"))?;
    }
    for w in code {
        hold(code_word(next(words)?) == Some(*w))?;
    }
    hold(words.next().is_none())
}

// The numbers that are left are the notes' words, three to a note.
fn same_notes(sink: &WordSink, words: &mut Words<'_>) -> Result<(), Miss> {
    for i in 0..sink.note_count() {
        let three = <[u32; 3]>::try_from(sink.note_at(i)?).or(Err(Miss::Case))?;
        for n in three {
            hold(next32(words)? == n)?;
        }
    }
    hold(words.next().is_none())
}

// What a piece puts.
fn put<F: FnOnce(&mut Emitter, &mut WordSink) -> Result<(), Refusal>>(
    heap: Global,
    words: &mut Words<'_>,
    piece: F,
) -> Result<(), Miss>
    requires { F.IsAlwaysCallable piece }
{
    let mut sink = WordSink::new(heap, ROOM)?;
    piece(&mut Emitter::new(), &mut sink)?;
    same_code(sink.code(), words)
}

// A sheet, then what a piece puts for it.
pub(crate) fn framed<F: FnOnce(&mut Emitter, &FrameLayout, &mut WordSink) -> Result<(), Refusal>>(
    heap: Global,
    words: &mut Words<'_>,
    piece: F,
) -> Result<(), Miss>
    requires { F.IsAlwaysCallable piece }
{
    let l = with_layout(heap, words)?;
    put(heap, words, |e, sink| piece(e, &l, sink))
}

// A sheet, then the notes of its prologue.
pub fn notes(heap: Global, words: &mut Words<'_>) -> Result<(), Miss> {
    let l = with_layout(heap, words)?;
    let mut sink = WordSink::new(heap, ROOM)?;
    Emitter::new().put_prologue(&l, &mut sink)?;
    same_notes(&sink, words)
}

// A signed amount, then what moves SP by it.
pub fn adjusted(heap: Global, words: &mut Words<'_>) -> Result<(), Miss> {
    let n = signed(next(words)?).ok_or(Miss::Case)?;
    let amount = i32::try_from(n).or(Err(Miss::Case))?;
    put(heap, words, |e, sink| e.gen_sp_reg_adjust(amount, sink))
}

// A size and a guard, then what probes it.
pub fn probed(heap: Global, words: &mut Words<'_>) -> Result<(), Miss> {
    let size = next32(words)?;
    let guard = next32(words)?;
    put(heap, words, |e, sink| {
        e.gen_inline_probestack(size, guard, sink)
    })
}
