// A saved register by its number.
ghost use Rattle.std.specs.Prelude.{◌≡◌, ◌%◌, ◌<◌};
ghost use Rattle.steps.specs.Forms.{reg};
ghost use Rattle.frame.specs.Codes.{class_of, code_by};

use a64::inst::{Class, PairClass, Reg};

// The number of a register, N of xN or vN.
#[derive(Clone, Copy)]
pub struct Saved {
    pub number: u8,
    ghost small: { number < 64 },
}

impl Saved {
    // A code is N for xN and 64 + N for vN. No `From`: the code's class is dropped.
    pub(crate) fn of(code: u8) -> Saved
        ensures { result.number ≡ code % 64 }
    {
        Saved { number: code % 64 }
    }

    pub(crate) fn reg(self) -> Reg
        ensures { result ≡ reg self.number }
    {
        Reg { enc: self.number }
    }

    pub(crate) fn code(self, class: Class) -> u8
        ensures { result ≡ code_by class self.number }
    {
        match class {
            Class::X => self.number,
            Class::D | Class::Q => 64 + self.number,
        }
    }
}

// The class of one register of a pair. No `From`: both types are another crate's.
pub(crate) fn class_of(class: PairClass) -> Class
    ensures { result ≡ class_of class }
{
    match class {
        PairClass::X => Class::X,
        PairClass::D => Class::D,
    }
}
