// The immediate operands.
pub mod makes;

// 12 bits, shifted left by 12 where `shift12` says so.
#[derive(Clone, Copy)]
pub struct Imm12 {
    pub bits: u16,
    pub shift12: bool,
}

// The offset of a pair in bytes: a multiple of 8 from -512 to 504.
#[derive(Clone, Copy)]
pub struct SImm7Scaled {
    pub value: i16,
}

// An offset in bytes from -256 to 255.
#[derive(Clone, Copy)]
pub struct SImm9 {
    pub value: i16,
}

// An offset in bytes: a multiple of 8 up to 32,760.
#[derive(Clone, Copy)]
pub struct UImm12Scaled {
    pub value: u16,
}

// `bits` at bit 16 * `shift`.
#[derive(Clone, Copy)]
pub struct MoveWideConst {
    pub bits: u16,
    pub shift: u8,
}
