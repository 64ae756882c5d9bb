// The eleven words of a sheet.
use crate::command::Mistake;
use numerals::number::{number8, number32};
use owned_sheet::{OwnedSheet, sizes_of};
use sheet::types::Sizes;
use std::alloc::Global;
use text::parts::Parts;
use text::words::Words;

// A sheet has numbers: a name stands for its place here.
const CONVENTIONS: [&str; 8] = [
    "Fast",
    "Tail",
    "SystemV",
    "WindowsFastcall",
    "AppleAarch64",
    "Probestack",
    "Winch",
    "PreserveAll",
];

const CALL_KINDS: [&str; 3] = ["None", "TailOnly", "Regular"];

// From bit 0 on.
const FLAGS: [&str; 11] = [
    "preserve_frame_pointers",
    "enable_pinned_reg",
    "unwind_info",
    "enable_compact_unwind_abi",
    "use_bti",
    "sign_return_address",
    "sign_return_address_all",
    "sign_return_address_with_bkey",
    "has_pauth",
    "inline_probes",
    "dynamic_vector",
];

// The place of a word among names.
fn place(names: &[&str], word: &[u8]) -> Option<u32> {
    let at = names.iter().position(|name| name.as_bytes() == word)?;
    u32::try_from(at).ok()
}

// A name by its place, or a number.
fn named(names: &[&str], word: &[u8]) -> Option<u32> {
    place(names, word).or_else(|| number32(word))
}

// Names joined by `+`, a number, or `-` for none.
fn flags(word: &[u8]) -> Option<u32> {
    if let b"-" = word {
        return Some(0);
    }
    if let Some(n) = number32(word) {
        return Some(n);
    }
    let mut all = 0;
    for part in Parts::new(word, b'+') {
        all |= 1u32.checked_shl(place(&FLAGS, part)?)?;
    }
    Some(all)
}

// A register's name, x0 to x30 or v0 to v31, or a number up to 255.
fn code(word: &[u8]) -> Option<u8> {
    match word {
        [b'x', n @ ..] => number8(n).filter(|n| *n <= 30),
        [b'v', n @ ..] => number8(n)
            .filter(|n| *n <= 31)
            .and_then(|n| n.checked_add(64)),
        _ => number8(word),
    }
}

// The codes joined by commas, or `-` for none. What is no code is a mistake: each program takes wrong codes in its own way.
fn codes(heap: Global, word: &[u8]) -> Result<Vec<u8>, Mistake> {
    let mut all = Vec::new(heap);
    if let b"-" = word {
        return Ok(all);
    }
    for part in Parts::new(word, b',') {
        all.push(code(part).ok_or(Mistake::Codes)?)?;
    }
    Ok(all)
}

fn word<'a>(words: &mut Words<'a>) -> Result<&'a [u8], Mistake> {
    words.next().ok_or(Mistake::SheetWords)
}

pub fn sized(words: &mut Words<'_>) -> Result<u32, Mistake> {
    number32(word(words)?).ok_or(Mistake::Number)
}

fn sizes(words: &mut Words<'_>) -> Result<Sizes, Mistake> {
    let mut all = [0; 6];
    for n in all.iter_mut() {
        *n = sized(words)?;
    }
    Ok(sizes_of(all))
}

pub fn read_sheet(heap: Global, words: &mut Words<'_>) -> Result<OwnedSheet, Mistake> {
    Ok(OwnedSheet {
        number: sized(words)?,
        call_conv: named(&CONVENTIONS, word(words)?).ok_or(Mistake::Convention)?,
        function_calls: named(&CALL_KINDS, word(words)?).ok_or(Mistake::CallKind)?,
        flags: flags(word(words)?).ok_or(Mistake::Flags)?,
        sizes: sizes(words)?,
        codes: codes(heap, word(words)?)?,
    })
}
