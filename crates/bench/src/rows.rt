// Sheets, one to a line: eleven words, numbers all, the codes joined by commas.
use numerals::number::{number8, number32};
use owned_sheet::OwnedSheet;
use std::alloc::{AllocError, Global};
use text::lines::Lines;
use text::parts::Parts;
use text::words::Words;

// The next word as a number, or 0: rows are measured, not judged.
fn next(words: &mut Words<'_>) -> u32 {
    words.next().and_then(number32).unwrap_or(0)
}

// The codes of a word; what is no code ends them. Each program takes wrong codes in its own way.
fn codes(heap: Global, word: &[u8]) -> Result<Vec<u8>, AllocError> {
    let mut all = Vec::new(heap);
    for part in Parts::new(word, b',') {
        let Some(code) = number8(part) else {
            break;
        };
        all.push(code)?;
    }
    Ok(all)
}

fn read_row(heap: Global, line: &[u8]) -> Result<OwnedSheet, AllocError> {
    let mut words = Words::new(line);
    let mut numbers = [0; 10];
    for n in numbers.iter_mut() {
        *n = next(&mut words);
    }
    let codes = codes(heap, words.next().unwrap_or(b"-"))?;
    Ok(OwnedSheet::of_numbers(numbers, codes))
}

pub fn read_rows(heap: Global, text: &[u8]) -> Result<Vec<OwnedSheet>, AllocError> {
    let mut all = Vec::new(heap);
    for line in Lines::new(text) {
        all.push(read_row(heap, line)?)?;
    }
    Ok(all)
}
