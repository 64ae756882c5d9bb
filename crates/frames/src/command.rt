// A command of a job, read from its line.
use crate::sheet_words::{read_sheet, sized};
use numerals::number::{code_word, number, signed};
use owned_sheet::OwnedSheet;
use std::alloc::{AllocFailed, Global};
use std::fmt;
use text::words::Words;

#[derive(Drop)]
pub enum Command {
    Decode(u32),
    Layout(OwnedSheet),
    Frame(OwnedSheet),
    Adjust(i32),
    Probes(u32, u32),
    Constant(u64),
    Open(Kind, usize),
    Add(OwnedSheet, Vec<u32>),
    Withdraw,
    Find(u32),
    Inst(usize),
    Note(usize),
    Counts,
    Show,
    Asm,
}

// The kind of a book's sink.
#[derive(Clone, Copy)]
pub enum Kind {
    Record,
    Words,
}

impl fmt::Display for Kind {
    fn fmt<W: fmt::Write>(&self, f: &mut fmt::Formatter<W>) -> fmt::Result {
        f.write_str(match self {
            Kind::Record => "record",
            Kind::Words => "words",
        })
    }
}

// Why a line is no command.
#[derive(Clone, Copy)]
pub enum Mistake {
    NoInput,
    NoSuchCommand,
    CodeWord,
    TooManyWords,
    SheetWords,
    Number,
    Signed,
    Wide,
    Convention,
    CallKind,
    Flags,
    Codes,
    Body,
    NoBook,
    Memory,
}

impl Mistake {
    fn words(self) -> &'static str {
        match self {
            Mistake::NoInput => "no input",
            Mistake::NoSuchCommand => "no such command",
            Mistake::CodeWord => "here belongs a code word, eight hexadecimal digits",
            Mistake::TooManyWords => "the line has more words than the command takes",
            Mistake::SheetWords => "a sheet has eleven words",
            Mistake::Number => "here belongs a number of 32 bits",
            Mistake::Signed => "here belongs a signed number of 32 bits",
            Mistake::Wide => "here belongs a number of 64 bits",
            Mistake::Convention => "the convention is no number and no name of one",
            Mistake::CallKind => "the call kind is no number and no name of one",
            Mistake::Flags => "the flags are no number and no names joined by +",
            Mistake::Codes => "the codes are no numbers up to 255 or registers, joined by commas",
            Mistake::Body => "behind the sheet belongs `body`, and then code words",
            Mistake::NoBook => "no book yet",
            Mistake::Memory => "no memory for the line",
        }
    }
}

impl fmt::Display for Mistake {
    fn fmt<W: fmt::Write>(&self, f: &mut fmt::Formatter<W>) -> fmt::Result {
        f.write_str(self.words())
    }
}

impl<T: Drop> From<AllocFailed<T>> for Mistake {
    fn from(_e: AllocFailed<T>) -> Mistake {
        Mistake::Memory
    }
}

fn code(words: &mut Words<'_>) -> Result<u32, Mistake> {
    words.next().and_then(code_word).ok_or(Mistake::CodeWord)
}

fn amount(words: &mut Words<'_>) -> Result<i32, Mistake> {
    let n = words.next().and_then(signed).ok_or(Mistake::Signed)?;
    i32::try_from(n).or(Err(Mistake::Signed))
}

fn value(words: &mut Words<'_>) -> Result<u64, Mistake> {
    words.next().and_then(number).ok_or(Mistake::Wide)
}

fn index(words: &mut Words<'_>) -> Result<usize, Mistake> {
    usize::try_from(value(words)?).or(Err(Mistake::Wide))
}

// The code words behind `body`, to the end of the line.
fn body(heap: Global, words: &mut Words<'_>) -> Result<Vec<u32>, Mistake> {
    let Some(b"body") = words.next() else {
        return Err(Mistake::Body);
    };
    let mut all = Vec::new(heap);
    for word in words {
        all.push(code_word(word).ok_or(Mistake::CodeWord)?)?;
    }
    Ok(all)
}

// The command of this name.
fn named(heap: Global, name: &[u8], words: &mut Words<'_>) -> Result<Command, Mistake> {
    match name {
        b"decode" => Ok(Command::Decode(code(words)?)),
        b"layout" => Ok(Command::Layout(read_sheet(heap, words)?)),
        b"frame" => Ok(Command::Frame(read_sheet(heap, words)?)),
        b"adjust" => Ok(Command::Adjust(amount(words)?)),
        b"probes" => Ok(Command::Probes(sized(words)?, sized(words)?)),
        b"constant" => Ok(Command::Constant(value(words)?)),
        b"record" => Ok(Command::Open(Kind::Record, index(words)?)),
        b"words" => Ok(Command::Open(Kind::Words, index(words)?)),
        b"add" => {
            let sheet = read_sheet(heap, words)?;
            Ok(Command::Add(sheet, body(heap, words)?))
        }
        b"withdraw" => Ok(Command::Withdraw),
        b"find" => Ok(Command::Find(sized(words)?)),
        b"inst" => Ok(Command::Inst(index(words)?)),
        b"note" => Ok(Command::Note(index(words)?)),
        b"counts" => Ok(Command::Counts),
        b"show" => Ok(Command::Show),
        b"asm" => Ok(Command::Asm),
        _ => Err(Mistake::NoSuchCommand),
    }
}

// The command of a line, or none where the line has no word.
pub fn read_command(heap: Global, line: &[u8]) -> Result<Option<Command>, Mistake> {
    let mut words = Words::new(line);
    let Some(name) = words.next() else {
        return Ok(None);
    };
    let read = named(heap, name, &mut words)?;
    match words.next() {
        None => Ok(Some(read)),
        Some(_) => Err(Mistake::TooManyWords),
    }
}
