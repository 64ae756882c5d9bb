// An instruction from its form's name and its fields in decimal, as a line of text has them. A field is found by its place: the forms differ in theirs.
use a64::imm::*;
use a64::inst::*;
use std::str::FromStr;

// Word k of a line, or none.
pub(crate) fn word(line: &str, k: usize) -> &str {
    line.split_whitespace().nth(k).unwrap_or("")
}

// Word k of a line as a number, or 0.
pub(crate) fn number<T: FromStr + Default + Drop>(line: &str, k: usize) -> T
where
    T::Err: Drop,
{
    word(line, k).parse().unwrap_or_default()
}

// Word k of a line as a byte, or 255, which is no register's code and no shift.
fn byte(line: &str, k: usize) -> u8 {
    word(line, k).parse().unwrap_or(255)
}

fn reg(line: &str, k: usize) -> Reg {
    Reg { enc: byte(line, k) }
}

fn add_sub_imm(op: AddSub, line: &str) -> Inst {
    Inst::AddSubImm {
        op,
        rd: reg(line, 2),
        rn: reg(line, 3),
        imm: Imm12 {
            bits: number(line, 4),
            shift12: byte(line, 5) == 1,
        },
    }
}

fn add_sub_ext(op: AddSub, line: &str) -> Inst {
    Inst::AddSubExt {
        op,
        rd: reg(line, 2),
        rn: reg(line, 3),
        rm: reg(line, 4),
    }
}

fn mov_wide(op: MoveWideOp, line: &str) -> Inst {
    Inst::MovWide {
        op,
        rd: reg(line, 2),
        imm: MoveWideConst {
            bits: number(line, 3),
            shift: byte(line, 4),
        },
    }
}

// A pair of registers stored or loaded. A function for each form, as each has other fields.
fn pair(form: &str, line: &str) -> Option<Inst> {
    let (dir, class, mode) = match form {
        "STPX_PRE" => (Dir::Store, PairClass::X, PairMode::Pre),
        "STPX_POST" => (Dir::Store, PairClass::X, PairMode::Post),
        "STPX_OFF" => (Dir::Store, PairClass::X, PairMode::Offset),
        "LDPX_PRE" => (Dir::Load, PairClass::X, PairMode::Pre),
        "LDPX_POST" => (Dir::Load, PairClass::X, PairMode::Post),
        "LDPX_OFF" => (Dir::Load, PairClass::X, PairMode::Offset),
        "STPD_PRE" => (Dir::Store, PairClass::D, PairMode::Pre),
        "STPD_POST" => (Dir::Store, PairClass::D, PairMode::Post),
        "STPD_OFF" => (Dir::Store, PairClass::D, PairMode::Offset),
        "LDPD_PRE" => (Dir::Load, PairClass::D, PairMode::Pre),
        "LDPD_POST" => (Dir::Load, PairClass::D, PairMode::Post),
        "LDPD_OFF" => (Dir::Load, PairClass::D, PairMode::Offset),
        _ => return None,
    };
    Some(Inst::Pair {
        dir,
        class,
        mode,
        rt: reg(line, 2),
        rt2: reg(line, 3),
        rn: reg(line, 4),
        offset: SImm7Scaled {
            value: number(line, 5),
        },
    })
}

// One register stored or loaded.
fn single(form: &str, line: &str) -> Option<Inst> {
    let (dir, class, mode) = match form {
        "STRX_PRE" => (Dir::Store, Class::X, Mode::Pre),
        "STRX_POST" => (Dir::Store, Class::X, Mode::Post),
        "LDRX_PRE" => (Dir::Load, Class::X, Mode::Pre),
        "LDRX_POST" => (Dir::Load, Class::X, Mode::Post),
        "STRD_PRE" => (Dir::Store, Class::D, Mode::Pre),
        "STRD_POST" => (Dir::Store, Class::D, Mode::Post),
        "LDRD_PRE" => (Dir::Load, Class::D, Mode::Pre),
        "LDRD_POST" => (Dir::Load, Class::D, Mode::Post),
        "STRQ_PRE" => (Dir::Store, Class::Q, Mode::Pre),
        "STRQ_POST" => (Dir::Store, Class::Q, Mode::Post),
        "LDRQ_PRE" => (Dir::Load, Class::Q, Mode::Pre),
        "LDRQ_POST" => (Dir::Load, Class::Q, Mode::Post),
        _ => return None,
    };
    Some(Inst::Single {
        dir,
        class,
        mode,
        rt: reg(line, 2),
        rn: reg(line, 3),
        offset: SImm9 {
            value: number(line, 4),
        },
    })
}

fn ldr_uimm(line: &str) -> Inst {
    Inst::LdrUImm {
        rt: reg(line, 2),
        rn: reg(line, 3),
        offset: UImm12Scaled {
            value: number(line, 4),
        },
    }
}

fn stur_w(line: &str) -> Inst {
    Inst::SturW {
        rt: reg(line, 2),
        rn: reg(line, 3),
        offset: SImm9 {
            value: number(line, 4),
        },
    }
}

// An instruction of any other form. Each arm reads the fields of its form alone: a field is a walk along the line.
fn other(form: &str, line: &str) -> Inst {
    match form {
        "ADDI" => add_sub_imm(AddSub::Add, line),
        "SUBI" => add_sub_imm(AddSub::Sub, line),
        "ADDX" => add_sub_ext(AddSub::Add, line),
        "SUBX" => add_sub_ext(AddSub::Sub, line),
        "ADDS" => Inst::AddsShifted {
            rd: reg(line, 2),
            rn: reg(line, 3),
            rm: reg(line, 4),
        },
        "LDRX_UOFF" => ldr_uimm(line),
        "LDRX_REG" => Inst::LdrReg {
            rt: reg(line, 2),
            rn: reg(line, 3),
            rm: reg(line, 4),
        },
        "STRW_REG" => Inst::StrWReg {
            rt: reg(line, 2),
            rn: reg(line, 3),
            rm: reg(line, 4),
        },
        "STURW" => stur_w(line),
        "MOVZ" => mov_wide(MoveWideOp::MovZ, line),
        "MOVK" => mov_wide(MoveWideOp::MovK, line),
        "PACIBSP" => Inst::Paci {
            key: Key::B,
            modifier: Modifier::Sp,
        },
        "BTIC" => Inst::BtiC,
        "BGT" => Inst::BGt {
            offset: number(line, 2),
        },
        _ => Inst::Other(number(line, 2)),
    }
}

// The instruction whose form is word 1 and whose fields follow.
pub(crate) fn inst(line: &str) -> Inst {
    let form = word(line, 1);
    pair(form, line)
        .or_else(|| single(form, line))
        .unwrap_or_else(|| other(form, line))
}
