// The words of a case's line, and why a case can't be judged.
use numerals::number::number32;
use refusal::Refusal;
use std::alloc::{AllocError, AllocFailed};
use text::words::Words;

// Why a case is not found to hold: it does not, or memory ran out.
#[derive(Drop)]
pub enum Miss {
    Case,
    Memory(AllocError),
}

impl From<Refusal> for Miss {
    fn from(_r: Refusal) -> Miss {
        Miss::Case
    }
}

impl From<AllocError> for Miss {
    fn from(e: AllocError) -> Miss {
        Miss::Memory(e)
    }
}

impl<T: Drop> From<AllocFailed<T>> for Miss {
    fn from(e: AllocFailed<T>) -> Miss {
        Miss::Memory(AllocError::from(e))
    }
}

// The case goes on where this is so.
pub fn hold(so: bool) -> Result<(), Miss> {
    so.then_some(()).ok_or(Miss::Case)
}

pub fn next<'a>(words: &mut Words<'a>) -> Result<&'a [u8], Miss> {
    words.next().ok_or(Miss::Case)
}

pub fn next32(words: &mut Words<'_>) -> Result<u32, Miss> {
    number32(next(words)?).ok_or(Miss::Case)
}

// A refusal as the table has it: its cause, layer and place, in numbers.
pub fn told(r: Refusal) -> [u64; 3] {
    [
        u64::from(r.cause.number()),
        u64::from(r.layer.number()),
        r.place,
    ]
}

// The next three words as a refusal's numbers.
pub fn want(words: &mut Words<'_>) -> Result<[u64; 3], Miss> {
    let cause = u64::from(next32(words)?);
    let layer = u64::from(next32(words)?);
    let place = u64::from(next32(words)?);
    Ok([cause, layer, place])
}
