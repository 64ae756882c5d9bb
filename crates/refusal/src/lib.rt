// Why a call was refused: the cause, the layer that found it, and the place.
#![tactic(auto)]

ghost use Rattle.refusal.specs.Told.{layer_number, number as number_of};
ghost use Rattle.refusal.specs.Words.{words_of};
ghost use Rattle.std.specs.Prelude.{◌≡◌, Some};

use std::fmt;

// Each has the number by which our documents and formats name it.
#[derive(Clone, Copy, PartialEq, Eq)]
pub enum Cause {
    // Convention, call kind or flag bit out of range.
    OutOfRange = 1,
    // A parameter is a dynamic vector.
    DynamicVector = 2,
    // A clobber code names no register that a function may clobber.
    CodeNotAllowed = 3,
    // A clobber code stands at an earlier position too.
    CodeRepeated = 4,
    // A size is no multiple of 16, or the sizes' sum is too large.
    Sizes = 5,
    // The tail size does not go with the incoming size.
    TailSize = 6,
    // Winch with incoming arguments would check a sealed address with another SP.
    WinchSeal = 7,
    // Compact unwinding saves by pairs and could save the pinned register.
    CompactPinned = 8,
    // The guard size cannot serve the probes.
    Guard = 9,
    // A function with this number is held already.
    NumberHeld = 10,
    // Too many functions, instructions or notes.
    TooMany = 11,
    // The instruction is no word's reading.
    NoReading = 12,
    // The price is above the room.
    NoRoom = 13,
    // A read or a rewind beyond what is held.
    NotHeld = 14,
    // A withdrawal from an empty book.
    EmptyBook = 15,
}

// The part of the repository that found a cause: sheets, words and sinks, or books.
#[derive(Clone, Copy, PartialEq, Eq)]
pub enum Layer {
    Sheet = 1,
    Sink = 2,
    Book = 3,
}

// The place is a position, an index, a slot or a room, by the cause; 0 where there is none.
#[derive(Clone, Copy, PartialEq, Eq)]
pub struct Refusal {
    pub cause: Cause,
    pub layer: Layer,
    pub place: u64,
}

impl Cause {
    // The cause's number.
    pub fn number(self) -> u8
        ensures { result ≡ number_of self }
    {
        self as u8
    }

    // The cause in words.
    pub fn words(self) -> &'static str
        ensures { result.now ≡ words_of self }
    {
        match self {
            Cause::OutOfRange => "convention, call kind or flag out of range",
            Cause::DynamicVector => "dynamic-vector parameter",
            Cause::CodeNotAllowed => "clobber code not allowed",
            Cause::CodeRepeated => "clobber code seen before",
            Cause::Sizes => "a size is no multiple of 16, or the sizes are too large together",
            Cause::TailSize => "tail size does not go with the incoming size",
            Cause::WinchSeal => "Winch with incoming arguments and a signed return address",
            Cause::CompactPinned => "compact unwinding together with a pinned register",
            Cause::Guard => "guard size cannot serve the probes",
            Cause::NumberHeld => "function number held already",
            Cause::TooMany => "too many functions, instructions or notes",
            Cause::NoReading => "instruction that is no word's reading",
            Cause::NoRoom => "price above the room",
            Cause::NotHeld => "read or rewind beyond what is held",
            Cause::EmptyBook => "withdraw from an empty book",
        }
    }
}

impl Layer {
    // 1 for sheets, 2 for words and sinks, 3 for books. A method for each enum: each has a definition of its own.
    pub fn number(self) -> u8
        ensures { result ≡ layer_number self }
    {
        self as u8
    }
}

impl fmt::Display for Cause {
    ghost output = { λ c. Some (words_of c) };

    fn fmt<W: fmt::Write>(&self, f: &mut fmt::Formatter<W>) -> fmt::Result {
        f.write_str(self.words())
    }
}
