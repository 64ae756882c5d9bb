// The part of a job behind one new sink: its calls are played on a new book by the call that carries the whole claim.
use crate::assembler::assembler;
use crate::code::{PieceCounts, counts_of, write_note};
use crate::command::{Command, Kind, Mistake};
use crate::show::show;
use crate::stop::Stop;
use crate::{mistaken, or_refused, perform};
use asm::Asm;
use book::play::{Played, play};
use codec::encode;
use plainbook::calls::{Answer, Call};
use record_sink::RecordSink;
use sink::sink::{Counts, Sink};
use std::alloc::{AllocError, Global};
use std::io;
use std::io::Write;
use word_sink::WordSink;

#[derive(Drop)]
struct Line {
    number: u64,
    command: Result<Command, Mistake>,
}

// The line that asks for a new sink.
#[derive(Clone, Copy)]
pub struct Opened {
    pub number: u64,
    pub kind: Kind,
    pub length: usize,
}

// The lines since the last new sink, and that sink, if there was one.
#[derive(Drop)]
pub struct Part {
    sink: Option<Opened>,
    lines: Vec<Line>,
}

// The call that a command makes of a book.
fn call_of(c: &Command) -> Option<Call<'_>> {
    match c {
        Command::Add(sheet, body) => Some(Call::Add(sheet.sheet(), body.as_slice())),
        Command::Withdraw => Some(Call::Withdraw),
        Command::Find(n) => Some(Call::LookUp(*n)),
        Command::Inst(i) => Some(Call::InstAt(*i)),
        Command::Note(i) => Some(Call::NoteAt(*i)),
        Command::Counts => Some(Call::Counts),
        _ => None,
    }
}

fn calls_of(heap: Global, lines: &[Line]) -> Result<Vec<Call<'_>>, AllocError> {
    let mut all = Vec::new(heap);
    for line in lines {
        if let Ok(c) = &line.command
            && let Some(call) = call_of(c)
        {
            all.push(call)?;
        }
    }
    Ok(all)
}

fn added(heap: Global, out: &mut impl Write, slot: usize, c: &Command) -> Result<(), Stop> {
    match c {
        Command::Add(sheet, words) => {
            let PieceCounts {
                prologue,
                epilogue,
                notes,
            } = counts_of(heap, sheet)?;
            let body = words.len();
            writeln!(
                out,
                "added {slot} prologue {prologue} body {body} epilogue {epilogue} notes {notes}"
            )?;
            Ok(())
        }
        _ => Ok(()),
    }
}

fn answered(heap: Global, out: &mut impl Write, c: &Command, a: Answer) -> Result<(), Stop> {
    match a {
        Answer::Added(r) => {
            let slot = r?;
            added(heap, out, slot, c)?;
        }
        Answer::Withdrew(r) => {
            let number = r?;
            writeln!(out, "withdrew {number}")?;
        }
        Answer::Found(Some(slot)) => writeln!(out, "slot {slot}")?,
        Answer::Found(None) => writeln!(out, "nothing")?,
        Answer::Inst(r) => {
            let i = r?;
            let w = encode(i)?;
            let text = Asm(i);
            writeln!(out, "inst {w:08X} ; {text}")?;
        }
        Answer::Note(r) => {
            let note = r?;
            write_note(out, note)?;
        }
        Answer::Counted(Counts { insts, notes, room }) => {
            writeln!(out, "counts {insts} {notes} {room}")?;
        }
    }
    Ok(())
}

// A sink that a job opens by its kind, which picks the type, and its length.
trait Opens: Sink + Drop {
    fn open(heap: Global, length: usize) -> Result<Self, AllocError>;
}

impl Opens for RecordSink {
    fn open(heap: Global, length: usize) -> Result<RecordSink, AllocError> {
        RecordSink::new(heap, length)
    }
}

impl Opens for WordSink {
    fn open(heap: Global, length: usize) -> Result<WordSink, AllocError> {
        WordSink::new(heap, length)
    }
}

// Plays the calls on a new book.
fn play_on<S: Opens>(heap: Global, length: usize, calls: &[Call]) -> Result<Played<S>, AllocError> {
    Ok(play(heap, S::open(heap, length)?, calls)?)
}

// The answer to a line, the k-th of the calls if it is one; what k is then.
// Counted by hand: `show` and `asm` play the first k calls again.
fn line_done(
    heap: Global,
    out: &mut impl Write,
    line: &Line,
    answers: &[Answer],
    k: usize,
) -> io::Result<usize> {
    match &line.command {
        Err(why) => {
            mistaken(out, line.number, *why)?;
            Ok(k)
        }
        Ok(c) => {
            if call_of(c).is_none() {
                perform(heap, out, c)?;
                return Ok(k);
            }
            if let Some(a) = answers.get(k) {
                let done = answered(heap, out, c, *a);
                or_refused(out, done)?;
            }
            Ok(k.saturating_add(1))
        }
    }
}

// A line where there is no book.
fn bookless(heap: Global, out: &mut impl Write, line: &Line, why: Mistake) -> io::Result<()> {
    match &line.command {
        Err(why) => mistaken(out, line.number, *why),
        Ok(Command::Show | Command::Asm) => mistaken(out, line.number, why),
        Ok(c) if call_of(c).is_some() => mistaken(out, line.number, why),
        Ok(c) => perform(heap, out, c),
    }
}

impl Part {
    pub fn new(heap: Global, sink: Option<Opened>) -> Part {
        Part {
            sink,
            lines: Vec::new(heap),
        }
    }

    pub fn keep(
        &mut self,
        number: u64,
        command: Result<Command, Mistake>,
    ) -> Result<(), AllocError> {
        self.lines.push(Line { number, command })?;
        Ok(())
    }

    fn without_book(&self, heap: Global, out: &mut impl Write, why: Mistake) -> io::Result<()> {
        for line in &self.lines {
            bookless(heap, out, line, why)?;
        }
        Ok(())
    }

    fn with_book<S: Opens>(
        &self,
        heap: Global,
        out: &mut impl Write,
        length: usize,
    ) -> io::Result<()> {
        let calls = calls_of(heap, self.lines.as_slice())?;
        let played = play_on::<S>(heap, length, calls.as_slice())?;
        let mut k = 0;
        for line in &self.lines {
            let so_far = calls.get(..k).unwrap_or(calls.as_slice());
            match &line.command {
                Ok(Command::Show) => show(out, &play_on::<S>(heap, length, so_far)?.book)?,
                Ok(Command::Asm) => assembler(out, &play_on::<S>(heap, length, so_far)?.book)?,
                _ => k = line_done(heap, out, line, played.answers.as_slice(), k)?,
            }
        }
        Ok(())
    }

    // Plays what was kept on a new sink of this kind.
    fn on_sink<S: Opens>(
        &self,
        heap: Global,
        out: &mut impl Write,
        opened: Opened,
    ) -> io::Result<()> {
        match S::open(heap, opened.length) {
            Ok(sink) => {
                let kind = opened.kind;
                let room = sink.counts().room;
                drop(sink);
                writeln!(out, "book {kind} room {room}")?;
                self.with_book::<S>(heap, out, opened.length)
            }
            Err(_) => {
                mistaken(out, opened.number, Mistake::Memory)?;
                self.without_book(heap, out, Mistake::Memory)
            }
        }
    }

    // Plays what was kept, and prints every answer in its place.
    pub fn play_out(&self, heap: Global, out: &mut impl Write) -> io::Result<()> {
        match self.sink {
            None => self.without_book(heap, out, Mistake::NoBook),
            Some(opened) => match opened.kind {
                Kind::Record => self.on_sink::<RecordSink>(heap, out, opened),
                Kind::Words => self.on_sink::<WordSink>(heap, out, opened),
            },
        }
    }
}
