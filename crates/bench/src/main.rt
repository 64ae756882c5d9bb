// How fast frames are made, and how fast words are read and written.
#![tactic(auto)]

mod held;
mod rows;

use crate::held::{filled, turns};
use crate::rows::read_rows;
use codec::{decode, encode};
use emitter::Emitter;
use layout::compute_frame_layout;
use numerals::number::number;
use owned_sheet::OwnedSheet;
use refusal::Refusal;
use sheet::check::check;
use sink::sink::Sink;
use std::io::Read;
use std::time::{Duration, Instant};
use std::{env, io};
use word_sink::WordSink;

// Room for a prologue, an epilogue and 30 notes.
const ROOM: usize = 256;

// So many rounds, and so many words, where no argument says otherwise.
const ROUNDS: u64 = 1000;

const WORDS: u64 = 1 << 24;

#[derive(Clone, Copy)]
struct Made {
    accepted: u64,
    words: u64,
}

// One frame, on a sink that is rewound first: how many words it has.
fn make(row: &OwnedSheet, emitter: &mut Emitter, sink: &mut WordSink) -> Result<usize, Refusal> {
    sink.rewind(0, 0)?;
    let layout = compute_frame_layout(check(row.sheet())?);
    emitter.put_prologue(&layout, sink)?;
    emitter.put_epilogue(&layout, sink)?;
    Ok(sink.counts().insts)
}

// Two sums in one walk, so counted by hand.
fn make_all(rows: &[OwnedSheet], emitter: &mut Emitter, sink: &mut WordSink) -> Made {
    let mut made = Made {
        accepted: 0,
        words: 0,
    };
    for row in rows {
        if let Ok(n) = make(row, emitter, sink) {
            made.accepted = made.accepted.wrapping_add(1);
            made.words = made.words.wrapping_add(n as u64);
        }
    }
    made
}

// Words spread over all of them, read and written again: how many came back. Counted by hand, beside the next word.
fn read_and_write(count: u64) -> u64 {
    let mut w = 0u32;
    let mut same = 0u64;
    for _ in 0..count {
        if let Ok(v) = encode(decode(w))
            && v == w
        {
            same = same.wrapping_add(1);
        }
        w = w.wrapping_add(0x9e37_79b1);
    }
    same
}

fn per_second(count: u64, took: Duration) -> u128 {
    let nanos = took.as_nanos();
    if nanos == 0 {
        return 0;
    }
    count as u128 * 1_000_000_000 / nanos
}

fn said(rt: &impl Eprint, what: &str, count: u64, took: Duration) -> io::Result<()> {
    let each = per_second(count, took);
    let micros = took.as_micros();
    eprintln!(rt; "{what} {count} in {micros} us, {each} a second")
}

// The k-th argument as a number.
fn argument(rt: &HostRuntime, k: usize, usual: u64) -> io::Result<u64> {
    let word = env::args(rt)?.nth(k);
    Ok(
        word.and_then(|word| number(word.as_bytes()))
            .unwrap_or(usual),
    )
}

fn frames(rt: &HostRuntime, rows: &[OwnedSheet], rounds: u64) -> io::Result<Made> {
    let mut emitter = Emitter::new();
    let mut sink = WordSink::new(rt.alloc(), ROOM)?;
    let mut made = make_all(rows, &mut emitter, &mut sink);
    let start = Instant::now(rt)?;
    for _ in 0..rounds {
        made = make_all(rows, &mut emitter, &mut sink);
    }
    let took = start.elapsed(rt)?;
    said(rt, "sheets", rounds.wrapping_mul(rows.len() as u64), took)?;
    said(rt, "frame words", rounds.wrapping_mul(made.words), took)?;
    Ok(made)
}

// One function more, looked up and withdrawn again, in books that hold more and more.
fn books(rt: &HostRuntime, row: &OwnedSheet, rounds: u64) -> io::Result<u64> {
    let mut well = 0u64;
    for held in [0u32, 16, 32, 48, 63] {
        let mut book = filled(rt.alloc(), row, held)?;
        let start = Instant::now(rt)?;
        well = well.wrapping_add(turns(&mut book, row, rounds));
        let took = start.elapsed(rt)?;
        let each = per_second(rounds, took);
        eprintln!(rt; "add, look up, withdraw with {held} held: {each} a second")?;
    }
    Ok(well)
}

fn words(rt: &HostRuntime, count: u64) -> io::Result<u64> {
    let start = Instant::now(rt)?;
    let same = read_and_write(count);
    let took = start.elapsed(rt)?;
    said(rt, "words read and written", count, took)?;
    Ok(same)
}

fn main(rt: HostRuntime) -> io::Result<()> {
    let mut input = Vec::new(rt.alloc());
    rt.stdin().read_to_end(&mut input)?;
    let rows = read_rows(rt.alloc(), input.as_slice())?;
    let rounds = argument(&rt, 1, ROUNDS)?;
    let count = argument(&rt, 2, WORDS)?;
    let made = frames(&rt, rows.as_slice(), rounds)?;
    let same = words(&rt, count)?;
    let turned = match rows.first() {
        Some(row) => books(&rt, row, rounds)?,
        None => 0,
    };
    let read = rows.len();
    let accepted = made.accepted;
    let each = made.words;
    println!(rt; "sheets {read} accepted {accepted} words {each}")?;
    println!(rt; "words read and written {same}")?;
    println!(rt; "added and withdrawn {turned}")
}
