// How the cost of a book's calls grows with the functions that it holds.
use book::book::Book;
use owned_sheet::OwnedSheet;
use refusal::Refusal;
use sheet::types::Sheet;
use std::alloc::{AllocError, Global};
use word_sink::WordSink;

// Room for 64 functions.
const ROOM: usize = 1 << 16;

// A body of eight words.
const BODY: [u32; 8] = [0xd503_201f; 8];

// The sheet of a row under another number.
fn numbered(row: &OwnedSheet, number: u32) -> Sheet<'_> {
    Sheet {
        number,
        ..row.sheet()
    }
}

// A book that holds so many functions, as far as it takes them.
pub fn filled(heap: Global, row: &OwnedSheet, count: u32) -> Result<Book<WordSink>, AllocError> {
    let mut book = Book::new(heap, WordSink::new(heap, ROOM)?)?;
    for number in 0..count {
        let _ = book.add(numbered(row, number), &BODY);
    }
    Ok(book)
}

// One function more, looked up and withdrawn again.
fn turn(book: &mut Book<WordSink>, row: &OwnedSheet) -> Result<bool, Refusal> {
    book.add(numbered(row, 1000), &BODY)?;
    let found = book.look_up(1000).is_some();
    book.withdraw()?;
    Ok(found)
}

// How often that went well. Counted by hand: a chain would take the book by a closure.
pub fn turns(book: &mut Book<WordSink>, row: &OwnedSheet, rounds: u64) -> u64 {
    let mut well = 0u64;
    for _ in 0..rounds {
        if let Ok(true) = turn(book, row) {
            well = well.wrapping_add(1);
        }
    }
    well
}
