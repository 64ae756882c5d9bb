// Plays scripts on sinks: for each script its number, a space, and 1 if every answer is the expected one, else 0.
#![tactic(auto)]

mod form;
mod play;

use form::{number, word};
use play::play;
use record_sink::{RecordSink, Records};
use std::alloc::{AllocError, Global};
use std::io;
use std::io::{BufRead, BufReader};
use word_sink::WordSink;

// A third sink, with prices 8 and 5, to show that generic code leans on no sink's prices.
type DearSink = Records<8, 5>;

#[derive(Drop)]
enum Any {
    Record(RecordSink),
    Word(WordSink),
    Dear(DearSink),
}

#[derive(Drop)]
struct Script {
    sink: Option<Any>,
    answer: String,
    right: bool,
    number: u32,
}

// The sink that a script's first line asks for.
fn made(heap: Global, line: &str) -> Result<Option<Any>, AllocError> {
    let len = number(line, 4);
    Ok(match word(line, 1) {
        "record" => Some(Any::Record(RecordSink::new(heap, len)?)),
        "word" => Some(Any::Word(WordSink::new(heap, len)?)),
        "other" => Some(Any::Dear(DearSink::new(heap, len)?)),
        _ => None,
    })
}

// One arm for each type: a sink's prices are types, so that there is no dyn sink.
fn answer(heap: Global, sink: &mut Option<Any>, line: &str) -> Result<String, AllocError> {
    match sink {
        None => String::from_str(heap, "= no sink"),
        Some(Any::Record(s)) => play(heap, s, line),
        Some(Any::Word(s)) => play(heap, s, line),
        Some(Any::Dear(s)) => play(heap, s, line),
    }
}

fn line(rt: &HostRuntime, script: &mut Script, text: &str) -> io::Result<()> {
    match word(text, 0) {
        "sink" => {
            script.sink = made(rt.alloc(), text)?;
            script.right = true;
            Ok(())
        }
        "=" => {
            script.right &= script.answer.as_str() == text;
            Ok(())
        }
        "end" => {
            script.number = script.number.saturating_add(1);
            let number = script.number;
            let verdict = u8::from(script.right);
            println!(rt; "{number} {verdict}")
        }
        _ => {
            script.answer = answer(rt.alloc(), &mut script.sink, text)?;
            Ok(())
        }
    }
}

fn main(rt: HostRuntime) -> io::Result<()> {
    let heap = rt.alloc();
    let mut script = Script {
        sink: None,
        answer: String::new(heap),
        right: true,
        number: 0,
    };
    for text in BufReader::new(heap, rt.stdin())?.lines(heap) {
        let text = text?;
        line(&rt, &mut script, text.as_str())?;
    }
    Ok(())
}
