// Runs a table of cases from standard input, a case to a line, and prints the number of each and whether it holds.
#![tactic(auto)]

mod books;
mod line;
mod pieces;
mod sheets;

use crate::line::{Miss, hold, next};
use a64::inst::Inst;
use asm::Asm;
use numerals::number::code_word;
use std::alloc::{AllocError, Global};
use std::io;
use std::io::{BufWriter, Read, Write};
use text::lines::Lines;
use text::words::Words;

// Where the text stands in `word WWWWWWWW TEXT`.
const TEXT: usize = 14;

fn printed(heap: Global, i: Inst) -> Result<String, AllocError> {
    match i {
        Inst::Other(_) => String::from_str(heap, "other"),
        _ => {
            let text = Asm(i);
            format!(in heap; "{text}")
        }
    }
}

// The word reads as an instruction that prints as the text, and encodes as the word.
fn reads(heap: Global, line: &[u8], words: &mut Words<'_>) -> Result<(), Miss> {
    let w = code_word(next(words)?).ok_or(Miss::Case)?;
    let i = codec::decode(w);
    hold(codec::encode(i)? == w)?;
    let text = line.get(TEXT..).ok_or(Miss::Case)?;
    let shown = printed(heap, i)?;
    hold(shown.as_bytes() == text)
}

// The case of this name holds.
fn named(heap: Global, name: &[u8], line: &[u8], words: &mut Words<'_>) -> Result<(), Miss> {
    match name {
        b"word" => reads(heap, line, words),
        b"accepted" => sheets::accepted(heap, words),
        b"turned" => sheets::turned_away(heap, words),
        b"prologue" => pieces::framed(heap, words, |e, l, sink| e.put_prologue(l, sink)),
        b"epilogue" => pieces::framed(heap, words, |e, l, sink| e.put_epilogue(l, sink)),
        b"save" => pieces::framed(heap, words, |e, l, sink| e.gen_clobber_save(l, sink)),
        b"notes" => pieces::notes(heap, words),
        b"adjust" => pieces::adjusted(heap, words),
        b"probes" => pieces::probed(heap, words),
        b"book" => books::held(heap, words),
        _ => Err(Miss::Case),
    }
}

// Whether the case of a line holds, or none where the line has no case.
fn holds(heap: Global, line: &[u8]) -> Result<Option<bool>, AllocError> {
    let mut words = Words::new(line);
    let Some(name) = words.next() else {
        return Ok(None);
    };
    match named(heap, name, line, &mut words) {
        Ok(()) => Ok(Some(true)),
        Err(Miss::Case) => Ok(Some(false)),
        Err(Miss::Memory(e)) => Err(e),
    }
}

// A line without a case has no number, so cases are counted by hand.
fn run(heap: Global, out: &mut impl Write, table: &[u8]) -> io::Result<()> {
    let mut count: u64 = 0;
    for line in Lines::new(table) {
        if let Some(good) = holds(heap, line)? {
            count = count.saturating_add(1);
            let answer = u8::from(good);
            writeln!(out, "{count} {answer}")?;
        }
    }
    Ok(())
}

fn main(rt: HostRuntime) -> io::Result<()> {
    let mut table = Vec::new(rt.alloc());
    rt.stdin().read_to_end(&mut table)?;
    let mut out = BufWriter::new(rt.alloc(), rt.stdout())?;
    run(rt.alloc(), &mut out, &table)?;
    out.flush()
}
