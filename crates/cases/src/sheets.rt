// Cases of sheets, in numbers alone.
use crate::line::{Miss, hold, next, next32, told, want};
use layout::{FrameLayout, compute_frame_layout};
use numerals::number::number8;
use owned_sheet::OwnedSheet;
use sheet::check::check;
use std::alloc::Global;
use text::parts::Parts;
use text::words::Words;

// Codes joined by commas, or `-`. What is no code is a miss: each program takes wrong codes in its own way.
fn codes(heap: Global, word: &[u8]) -> Result<Vec<u8>, Miss> {
    let mut all = Vec::new(heap);
    if let b"-" = word {
        return Ok(all);
    }
    for part in Parts::new(word, b',') {
        all.push(number8(part).ok_or(Miss::Case)?)?;
    }
    Ok(all)
}

// The sheet that comes next on the line.
fn read_sheet(heap: Global, words: &mut Words<'_>) -> Result<OwnedSheet, Miss> {
    let mut numbers = [0; 10];
    for n in numbers.iter_mut() {
        *n = next32(words)?;
    }
    let codes = codes(heap, next(words)?)?;
    Ok(OwnedSheet::of_numbers(numbers, codes))
}

// The sheet is accepted.
pub fn accepted(heap: Global, words: &mut Words<'_>) -> Result<(), Miss> {
    let sheet = read_sheet(heap, words)?;
    check(sheet.sheet())?;
    Ok(())
}

// The sheet is refused with the number, layer and place that stand before it.
pub fn turned_away(heap: Global, words: &mut Words<'_>) -> Result<(), Miss> {
    let want = want(words)?;
    let sheet = read_sheet(heap, words)?;
    match check(sheet.sheet()) {
        Ok(_) => Err(Miss::Case),
        Err(r) => hold(told(r) == want),
    }
}

// The layout of the sheet that comes next on the line, if it is accepted.
pub fn with_layout(heap: Global, words: &mut Words<'_>) -> Result<FrameLayout, Miss> {
    let sheet = read_sheet(heap, words)?;
    Ok(compute_frame_layout(check(sheet.sheet())?))
}
