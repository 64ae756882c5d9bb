// Each constructor gives an operand exactly where the number can stand in a word. The names are cranelift's.
ghost use Rattle.a64.specs.Operands.{imm12_of, imm12_value, simm7_of, simm9_of, uimm12_of};
ghost use Rattle.std.specs.Prelude.{◌≡◌};

use crate::imm::{Imm12, SImm7Scaled, SImm9, UImm12Scaled};

impl Imm12 {
    pub fn maybe_from_u64(val: u64) -> Option<Imm12>
        ensures { result ≡ imm12_of val }
    {
        if val < 4096 {
            Some(Imm12 {
                bits: val as u16,
                shift12: false,
            })
        } else if val % 4096 == 0 && val < 1 << 24 {
            Some(Imm12 {
                bits: (val / 4096) as u16,
                shift12: true,
            })
        } else {
            None
        }
    }

    // The number that it stands for.
    pub fn value(self) -> u32
        ensures { result ≡ imm12_value self }
    {
        let bits = self.bits as u32;
        if self.shift12 { bits * 4096 } else { bits }
    }
}

impl SImm7Scaled {
    pub fn maybe_from_i64(value: i64) -> Option<SImm7Scaled>
        ensures { result ≡ simm7_of value }
    {
        if value >= -512 && value <= 511 && value % 8 == 0 {
            Some(SImm7Scaled {
                value: value as i16,
            })
        } else {
            None
        }
    }
}

impl SImm9 {
    pub fn maybe_from_i64(value: i64) -> Option<SImm9>
        ensures { result ≡ simm9_of value }
    {
        if value >= -256 && value <= 255 {
            Some(SImm9 {
                value: value as i16,
            })
        } else {
            None
        }
    }
}

impl UImm12Scaled {
    pub fn maybe_from_i64(value: i64) -> Option<UImm12Scaled>
        ensures { result ≡ uimm12_of value }
    {
        if value >= 0 && value <= 32760 && value % 8 == 0 {
            Some(UImm12Scaled {
                value: value as u16,
            })
        } else {
            None
        }
    }
}
