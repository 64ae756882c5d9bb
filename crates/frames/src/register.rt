// A register under its name.
use std::fmt;

// By its code: N is xN, and 64 + N the Nth vector register, named by a letter.
#[derive(Clone, Copy)]
pub struct Register {
    pub code: u8,
    pub vector: char,
}

impl Register {
    // As the whole vector register.
    pub fn v(code: u8) -> Register {
        Register { code, vector: 'v' }
    }

    // As the lower half, which alone is saved.
    pub fn d(code: u8) -> Register {
        Register { code, vector: 'd' }
    }
}

impl fmt::Display for Register {
    fn fmt<W: fmt::Write>(&self, f: &mut fmt::Formatter<W>) -> fmt::Result {
        let code = self.code;
        if code < 64 {
            write!(f, "x{code}")
        } else {
            let letter = self.vector;
            let n = code - 64;
            write!(f, "{letter}{n}")
        }
    }
}
