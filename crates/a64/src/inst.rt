// The named instructions, 64-bit unless a name has a W.
use crate::imm::{Imm12, MoveWideConst, SImm7Scaled, SImm9, UImm12Scaled};

// A register by its number in a word, 0 to 31. The form says whether it is xN, vN, SP or the zero register.
#[derive(Clone, Copy, PartialEq, Eq)]
pub struct Reg {
    pub enc: u8,
}

impl Reg {
    // x16, the first temporary
    pub const SPILLTMP: Reg = Reg { enc: 16 };
    // x17, the second temporary
    pub const TMP2: Reg = Reg { enc: 17 };
    // x29, the frame pointer
    pub const FP: Reg = Reg { enc: 29 };
    // x30, the link register
    pub const LR: Reg = Reg { enc: 30 };
    // number 31 as a base and in ADD and SUB of an immediate or an extended register
    pub const SP: Reg = Reg { enc: 31 };
    // number 31 elsewhere
    pub const ZERO: Reg = Reg { enc: 31 };
}

#[derive(Clone, Copy, PartialEq, Eq)]
pub enum AddSub {
    Add,
    Sub,
}

#[derive(Clone, Copy, PartialEq, Eq)]
pub enum Dir {
    Store,
    Load,
}

// Whether a pair is of X registers or of the low halves of vectors.
#[derive(Clone, Copy, PartialEq, Eq)]
pub enum PairClass {
    X,
    D,
}

#[derive(Clone, Copy, PartialEq, Eq)]
pub enum PairMode {
    Pre,
    Post,
    Offset,
}

// An X register, the low half of a vector, or a whole vector.
#[derive(Clone, Copy, PartialEq, Eq)]
pub enum Class {
    X,
    D,
    Q,
}

#[derive(Clone, Copy, PartialEq, Eq)]
pub enum Mode {
    Pre,
    Post,
}

#[derive(Clone, Copy, PartialEq, Eq)]
pub enum MoveWideOp {
    MovZ,
    MovK,
}

// A key of pointer authentication.
#[derive(Clone, Copy, PartialEq, Eq)]
pub enum Key {
    A,
    B,
}

// What a return address is sealed with besides the key.
#[derive(Clone, Copy, PartialEq, Eq)]
pub enum Modifier {
    Zero,
    Sp,
}

// A key with its modifier: AZ, ASP, BZ or BSP.
#[derive(Clone, Copy, PartialEq, Eq)]
pub struct ApiKey {
    pub key: Key,
    pub modifier: Modifier,
}

#[derive(Clone, Copy)]
pub enum Inst {
    // add, sub xd|sp, xn|sp, #imm
    AddSubImm {
        op: AddSub,
        rd: Reg,
        rn: Reg,
        imm: Imm12,
    },
    // add, sub xd|sp, xn|sp, xm, uxtx
    AddSubExt {
        op: AddSub,
        rd: Reg,
        rn: Reg,
        rm: Reg,
    },
    // adds xd, xn, xm
    AddsShifted {
        rd: Reg,
        rn: Reg,
        rm: Reg,
    },
    // stp, ldp of X or D
    Pair {
        dir: Dir,
        class: PairClass,
        mode: PairMode,
        rt: Reg,
        rt2: Reg,
        rn: Reg,
        offset: SImm7Scaled,
    },
    // str, ldr of X, D or Q, pre- or post-indexed
    Single {
        dir: Dir,
        class: Class,
        mode: Mode,
        rt: Reg,
        rn: Reg,
        offset: SImm9,
    },
    // ldr xt, [xn|sp, #offset]
    LdrUImm {
        rt: Reg,
        rn: Reg,
        offset: UImm12Scaled,
    },
    // ldr xt, [xn|sp, xm]
    LdrReg {
        rt: Reg,
        rn: Reg,
        rm: Reg,
    },
    // str wt, [xn|sp, xm]
    StrWReg {
        rt: Reg,
        rn: Reg,
        rm: Reg,
    },
    // stur wt, [xn|sp, #offset]
    SturW {
        rt: Reg,
        rn: Reg,
        offset: SImm9,
    },
    // movz, movk xd, #bits, lsl #16*shift
    MovWide {
        op: MoveWideOp,
        rd: Reg,
        imm: MoveWideConst,
    },
    // paciaz, paciasp, pacibz, pacibsp; key and modifier apart, as the word has a bit for each
    Paci {
        key: Key,
        modifier: Modifier,
    },
    // autiaz, autiasp, autibz, autibsp
    Auti {
        key: Key,
        modifier: Modifier,
    },
    // bti c
    BtiC,
    // ret x30
    Ret,
    // retaa, retab
    RetAuth {
        key: Key,
    },
    // b.gt, by `offset` instructions from this one
    BGt {
        offset: i32,
    },
    // any other word, with its value
    Other(u32),
}
