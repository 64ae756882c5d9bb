// Instructions as an assembler takes them. `llvm-mc` gives back the same word.
// A printer's parameters are the fields of its form's case.
#![tactic(auto)]

use a64::imm::{Imm12, MoveWideConst};
use a64::inst::{
    AddSub, Class, Dir, Inst, Key, Mode, Modifier, MoveWideOp, PairClass, PairMode, Reg,
};
use std::fmt;

// The instruction that is printed; one that is no word's reading prints as something an assembler refuses.
#[derive(Clone, Copy)]
pub struct Asm(pub Inst);

// How the number of a register is read: as a general register, with 31 for zero or for SP, or as part of a vector.
#[derive(Clone, Copy)]
enum Bank {
    X,
    XSp,
    W,
    D,
    Q,
}

#[derive(Clone, Copy)]
struct Name(Bank, Reg);

impl fmt::Display for Name {
    fn fmt<W: fmt::Write>(&self, f: &mut fmt::Formatter<W>) -> fmt::Result {
        let n = self.1.enc;
        match self.0 {
            Bank::X if n == 31 => f.write_str("xzr"),
            Bank::XSp if n == 31 => f.write_str("sp"),
            Bank::W if n == 31 => f.write_str("wzr"),
            Bank::X => write!(f, "x{n}"),
            Bank::XSp => write!(f, "x{n}"),
            Bank::W => write!(f, "w{n}"),
            Bank::D => write!(f, "d{n}"),
            Bank::Q => write!(f, "q{n}"),
        }
    }
}

// A memory operand: a base with an offset in bytes.
#[derive(Clone, Copy)]
struct Address(PairMode, Reg, i16);

impl fmt::Display for Address {
    fn fmt<W: fmt::Write>(&self, f: &mut fmt::Formatter<W>) -> fmt::Result {
        let base = Name(Bank::XSp, self.1);
        let offset = self.2;
        match self.0 {
            PairMode::Pre => write!(f, "[{base}, #{offset}]!"),
            PairMode::Post => write!(f, "[{base}], #{offset}"),
            PairMode::Offset => write!(f, "[{base}, #{offset}]"),
        }
    }
}

// A number, shifted to the left where the shift is not 0.
#[derive(Clone, Copy)]
struct Shifted {
    bits: u16,
    shift: u32,
}

impl fmt::Display for Shifted {
    fn fmt<W: fmt::Write>(&self, f: &mut fmt::Formatter<W>) -> fmt::Result {
        let bits = self.bits;
        match self.shift {
            0 => write!(f, "#{bits}"),
            shift => write!(f, "#{bits}, lsl #{shift}"),
        }
    }
}

impl From<Imm12> for Shifted {
    fn from(imm: Imm12) -> Shifted {
        Shifted {
            bits: imm.bits,
            shift: if imm.shift12 { 12 } else { 0 },
        }
    }
}

impl From<MoveWideConst> for Shifted {
    fn from(imm: MoveWideConst) -> Shifted {
        Shifted {
            bits: imm.bits,
            shift: imm.shift as u32 * 16,
        }
    }
}

impl From<Class> for Bank {
    fn from(class: Class) -> Bank {
        match class {
            Class::X => Bank::X,
            Class::D => Bank::D,
            Class::Q => Bank::Q,
        }
    }
}

impl From<PairClass> for Bank {
    fn from(class: PairClass) -> Bank {
        match class {
            PairClass::X => Bank::X,
            PairClass::D => Bank::D,
        }
    }
}

// The parts of names. The types are another crate's, so they can't print themselves.
fn operation(op: AddSub) -> &'static str {
    match op {
        AddSub::Add => "add",
        AddSub::Sub => "sub",
    }
}

fn direction(dir: Dir) -> &'static str {
    match dir {
        Dir::Store => "st",
        Dir::Load => "ld",
    }
}

fn letter(key: Key) -> &'static str {
    match key {
        Key::A => "a",
        Key::B => "b",
    }
}

fn add_sub_imm<W: fmt::Write>(
    f: &mut fmt::Formatter<W>,
    op: AddSub,
    rd: Reg,
    rn: Reg,
    imm: Imm12,
) -> fmt::Result {
    let name = operation(op);
    let rd = Name(Bank::XSp, rd);
    let rn = Name(Bank::XSp, rn);
    let imm = Shifted::from(imm);
    write!(f, "{name} {rd}, {rn}, {imm}")
}

fn add_sub_ext<W: fmt::Write>(
    f: &mut fmt::Formatter<W>,
    op: AddSub,
    rd: Reg,
    rn: Reg,
    rm: Reg,
) -> fmt::Result {
    let name = operation(op);
    let rd = Name(Bank::XSp, rd);
    let rn = Name(Bank::XSp, rn);
    let rm = Name(Bank::X, rm);
    write!(f, "{name} {rd}, {rn}, {rm}, uxtx")
}

fn adds_shifted<W: fmt::Write>(
    f: &mut fmt::Formatter<W>,
    rd: Reg,
    rn: Reg,
    rm: Reg,
) -> fmt::Result {
    let rd = Name(Bank::X, rd);
    let rn = Name(Bank::X, rn);
    let rm = Name(Bank::X, rm);
    write!(f, "adds {rd}, {rn}, {rm}")
}

fn mov_wide<W: fmt::Write>(
    f: &mut fmt::Formatter<W>,
    op: MoveWideOp,
    rd: Reg,
    imm: MoveWideConst,
) -> fmt::Result {
    let name = match op {
        MoveWideOp::MovZ => "movz",
        MoveWideOp::MovK => "movk",
    };
    let rd = Name(Bank::X, rd);
    let imm = Shifted::from(imm);
    write!(f, "{name} {rd}, {imm}")
}

// No `From` for the mode: both types are another crate's.
fn indexed<W: fmt::Write>(
    f: &mut fmt::Formatter<W>,
    dir: Dir,
    rt: Name,
    mode: Mode,
    rn: Reg,
    offset: i16,
) -> fmt::Result {
    let name = direction(dir);
    let mode = match mode {
        Mode::Pre => PairMode::Pre,
        Mode::Post => PairMode::Post,
    };
    let at = Address(mode, rn, offset);
    write!(f, "{name}r {rt}, {at}")
}

fn by_register<W: fmt::Write>(
    f: &mut fmt::Formatter<W>,
    dir: Dir,
    rt: Name,
    rn: Reg,
    rm: Reg,
) -> fmt::Result {
    let name = direction(dir);
    let rn = Name(Bank::XSp, rn);
    let rm = Name(Bank::X, rm);
    write!(f, "{name}r {rt}, [{rn}, {rm}]")
}

fn pauth<W: fmt::Write>(
    f: &mut fmt::Formatter<W>,
    name: &str,
    key: Key,
    modifier: Modifier,
) -> fmt::Result {
    let key = letter(key);
    let modifier = match modifier {
        Modifier::Zero => "z",
        Modifier::Sp => "sp",
    };
    write!(f, "{name}{key}{modifier}")
}

// One arm for each form.
impl fmt::Display for Asm {
    fn fmt<W: fmt::Write>(&self, f: &mut fmt::Formatter<W>) -> fmt::Result {
        match self.0 {
            Inst::AddSubImm { op, rd, rn, imm } => add_sub_imm(f, op, rd, rn, imm),
            Inst::AddSubExt { op, rd, rn, rm } => add_sub_ext(f, op, rd, rn, rm),
            Inst::AddsShifted { rd, rn, rm } => adds_shifted(f, rd, rn, rm),
            Inst::MovWide { op, rd, imm } => mov_wide(f, op, rd, imm),
            Inst::Pair {
                dir,
                class,
                mode,
                rt,
                rt2,
                rn,
                offset,
            } => {
                let name = direction(dir);
                let rt = Name(class.into(), rt);
                let rt2 = Name(class.into(), rt2);
                let at = Address(mode, rn, offset.value);
                write!(f, "{name}p {rt}, {rt2}, {at}")
            }
            Inst::Single {
                dir,
                class,
                mode,
                rt,
                rn,
                offset,
            } => indexed(f, dir, Name(class.into(), rt), mode, rn, offset.value),
            Inst::LdrUImm { rt, rn, offset } => {
                let rt = Name(Bank::X, rt);
                let rn = Name(Bank::XSp, rn);
                let offset = offset.value;
                write!(f, "ldr {rt}, [{rn}, #{offset}]")
            }
            Inst::LdrReg { rt, rn, rm } => by_register(f, Dir::Load, Name(Bank::X, rt), rn, rm),
            Inst::StrWReg { rt, rn, rm } => by_register(f, Dir::Store, Name(Bank::W, rt), rn, rm),
            Inst::SturW { rt, rn, offset } => {
                let rt = Name(Bank::W, rt);
                let at = Address(PairMode::Offset, rn, offset.value);
                write!(f, "stur {rt}, {at}")
            }
            Inst::Paci { key, modifier } => pauth(f, "paci", key, modifier),
            Inst::Auti { key, modifier } => pauth(f, "auti", key, modifier),
            Inst::BtiC => f.write_str("bti c"),
            Inst::Ret => f.write_str("ret"),
            Inst::RetAuth { key } => {
                let key = letter(key);
                write!(f, "reta{key}")
            }
            Inst::BGt { offset } => {
                // the assembler counts in bytes
                let bytes = offset as i64 * 4;
                write!(f, "b.gt #{bytes}")
            }
            Inst::Other(w) => write!(f, ".inst 0x{w:08x}"),
        }
    }
}
