// Cases of books: as many functions as told, all alike but for their numbers, on a record sink.
use crate::line::{Miss, hold, next, next32, told, want};
use book::book::Book;
use record_sink::RecordSink;
use refusal::Refusal;
use sheet::types::{Sheet, Sizes};
use std::alloc::{AllocError, Global};
use text::words::Words;

// A function that calls nothing and keeps nothing: its frame is a return alone.
fn bare(number: u32) -> Sheet<'static> {
    Sheet {
        number,
        call_conv: 2,
        function_calls: 0,
        flags: 0,
        sizes: Sizes {
            incoming: 0,
            tail: 0,
            stackslots: 0,
            fixed: 0,
            outgoing: 0,
            guard: 0,
        },
        clobbers: &[],
    }
}

// The answer to the last of the adds, or none where there was none.
fn last_add(
    heap: Global,
    count: u32,
    body: usize,
    length: usize,
) -> Result<Option<Result<usize, Refusal>>, AllocError> {
    let words = vec![in heap; 0xD503201F; body]?;
    let mut book = Book::new(heap, RecordSink::new(heap, length)?)?;
    let mut last = None;
    for k in 0..count {
        last = Some(book.add(bare(k), words.as_slice()));
    }
    Ok(last)
}

fn same(words: &mut Words<'_>, answer: Result<usize, Refusal>) -> Result<(), Miss> {
    match (next(words)?, answer) {
        (b"slot", Ok(slot)) => hold(next32(words)? as usize == slot),
        (b"refused", Err(r)) => hold(want(words)? == told(r)),
        _ => Err(Miss::Case),
    }
}

// COUNT functions with BODY words each on a sink of LENGTH: the last add is answered as told.
pub fn held(heap: Global, words: &mut Words<'_>) -> Result<(), Miss> {
    let count = next32(words)?;
    let body = next32(words)?;
    let length = next32(words)?;
    let last = last_add(heap, count, body as usize, length as usize)?;
    same(words, last.ok_or(Miss::Case)?)
}
