// A set of register codes: a mask for the integer registers and one for the vectors.
ghost use Rattle.std.specs.Prelude.{◌≡◌, ℕ, false, ◌≢◌};
ghost use Rattle.codes.specs.Marked.{Coded, holds, marked};

use crate::bits::{has_bit, with_bit};

// Not one mask of 128 bits: codes between and above the two are no registers', so that form would ask for the same tests.
#[derive(Clone, Copy)]
pub struct Marks {
    ints: u32,
    vectors: u32,
}

impl Marks {
    pub fn new() -> Marks
        ensures { (c : ℕ) → marked result c ≡ 0 }
    {
        Marks {
            ints: 0,
            vectors: 0,
        }
    }

    pub fn has(&self, code: u8) -> bool
        ensures { result ≡ holds self.now code }
    {
        if code < 32 {
            has_bit(self.ints, code)
        } else if code >= 64 && code < 96 {
            has_bit(self.vectors, code - 64)
        } else {
            false
        }
    }

    // What is no register's code is not added.
    pub fn add(&mut self, code: u8)
        ensures there { Coded code → marked self.new code ≡ 1 }
        ensures others { (d : ℕ) → (d ≢ code) → marked self.new d ≡ marked self.old d }
    {
        if code < 32 {
            self.ints = with_bit(self.ints, code);
        } else if code >= 64 && code < 96 {
            self.vectors = with_bit(self.vectors, code - 64);
        }
    }
}
