// The writer: one small writer for each form, field by field from bit 31 down. Its parameters are the fields of the form's case.
ghost use Rattle.a64.specs.Words.{Formed, Numbered, after, key_bit as key_bit_of, load_bit as load_bit_of, sp_bit, word};
ghost use Rattle.codec.specs.Writes.{Writes};
ghost use Rattle.std.specs.Prelude.{◌≡◌, ◌<◌, ◌^◌, [], ◌∷◌, MatchOption};

use crate::bits::{join, raw};
use a64::imm::*;
use a64::inst::*;
use decoder::clash::{pair_clash, single_clash};

// The bits by which a word tells its direction and its key.
fn load_bit(dir: Dir) -> u32
    ensures { result ≡ load_bit_of dir }
{
    dir as u32
}

fn key_bit(key: Key) -> u32
    ensures { result ≡ key_bit_of key }
{
    key as u32
}

// A form of three registers: its head, three bits, and the six bits before rn.
fn by_registers(head: u32, kind: u32, option: u32, rd: Reg, rn: Reg, rm: Reg) -> Option<u32>
    requires { (head < 256) × ((kind < 8) × (option < 64)) }
    ensures { MatchOption result (Numbered rd × Numbered rn × Numbered rm → ⊥) (λ w. (Numbered rd × Numbered rn × Numbered rm) × (w ≡ after head ((3, kind) ∷ (5, rm.enc) ∷ (6, option) ∷ (5, rn.enc) ∷ (5, rd.enc) ∷ []))) }
{
    if rd.enc >= 32 || rn.enc >= 32 || rm.enc >= 32 {
        return None;
    }
    let w = join(head, 3, kind);
    let w = join(w, 5, rm.enc as u32);
    let w = join(w, 6, option);
    let w = join(w, 5, rn.enc as u32);
    Some(join(w, 5, rd.enc as u32))
}

fn add_sub_imm(op: AddSub, rd: Reg, rn: Reg, imm: Imm12) -> Option<u32>
    ensures { Writes (Inst.AddSubImm op rd rn imm) result }
{
    if rd.enc >= 32 || rn.enc >= 32 || imm.bits >= 4096 {
        return None;
    }
    let head = match op {
        AddSub::Add => 0x91,
        AddSub::Sub => 0xd1,
    };
    let sh = if imm.shift12 { 1 } else { 0 };
    let w = join(head, 1, 0);
    let w = join(w, 1, sh);
    let w = join(w, 12, imm.bits as u32);
    let w = join(w, 5, rn.enc as u32);
    Some(join(w, 5, rd.enc as u32))
}

fn pair(
    dir: Dir,
    class: PairClass,
    mode: PairMode,
    rt: Reg,
    rt2: Reg,
    rn: Reg,
    offset: SImm7Scaled,
) -> Option<u32>
    ensures { Writes (Inst.Pair dir class mode rt rt2 rn offset) result }
{
    if rt.enc >= 32 || rt2.enc >= 32 || rn.enc >= 32 || pair_clash(dir, class, mode, rt, rt2, rn) {
        return None;
    }
    let imm = raw(offset.value as i32, 10)?;
    if imm % 8 != 0 {
        return None;
    }
    let head = match (class, mode) {
        (PairClass::X, PairMode::Post) => 0xa8,
        (PairClass::X, PairMode::Offset) => 0xa9,
        (PairClass::X, PairMode::Pre) => 0xa9,
        (PairClass::D, PairMode::Post) => 0x6c,
        (PairClass::D, PairMode::Offset) => 0x6d,
        (PairClass::D, PairMode::Pre) => 0x6d,
    };
    let low = match mode {
        PairMode::Post => 1,
        PairMode::Offset => 0,
        PairMode::Pre => 1,
    };
    let w = join(head, 1, low);
    let w = join(w, 1, load_bit(dir));
    let w = join(w, 7, imm / 8);
    let w = join(w, 5, rt2.enc as u32);
    let w = join(w, 5, rn.enc as u32);
    Some(join(w, 5, rt.enc as u32))
}

fn add_sub_ext(op: AddSub, rd: Reg, rn: Reg, rm: Reg) -> Option<u32>
    ensures { Writes (Inst.AddSubExt op rd rn rm) result }
{
    let head = match op {
        AddSub::Add => 0x8b,
        AddSub::Sub => 0xcb,
    };
    by_registers(head, 0b00_1, 0b011_000, rd, rn, rm)
}

fn adds_shifted(rd: Reg, rn: Reg, rm: Reg) -> Option<u32>
    ensures { Writes (Inst.AddsShifted rd rn rm) result }
{
    by_registers(0xab, 0b00_0, 0, rd, rn, rm)
}

fn single(dir: Dir, class: Class, mode: Mode, rt: Reg, rn: Reg, offset: SImm9) -> Option<u32>
    ensures { Writes (Inst.Single dir class mode rt rn offset) result }
{
    if rt.enc >= 32 || rn.enc >= 32 || single_clash(class, rt, rn) {
        return None;
    }
    let imm = raw(offset.value as i32, 9)?;
    let (head, wide) = match class {
        Class::X => (0xf8, 0),
        Class::D => (0xfc, 0),
        Class::Q => (0x3c, 1),
    };
    let index = match mode {
        Mode::Post => 0b01,
        Mode::Pre => 0b11,
    };
    let w = join(head, 1, wide);
    let w = join(w, 1, load_bit(dir));
    let w = join(w, 1, 0);
    let w = join(w, 9, imm);
    let w = join(w, 2, index);
    let w = join(w, 5, rn.enc as u32);
    Some(join(w, 5, rt.enc as u32))
}

fn ldr_uimm(rt: Reg, rn: Reg, offset: UImm12Scaled) -> Option<u32>
    ensures { Writes (Inst.LdrUImm rt rn offset) result }
{
    if rt.enc >= 32 || rn.enc >= 32 || offset.value >= 32768 || offset.value % 8 != 0 {
        return None;
    }
    let w = join(0xf9, 2, 0b01);
    let w = join(w, 12, offset.value as u32 / 8);
    let w = join(w, 5, rn.enc as u32);
    Some(join(w, 5, rt.enc as u32))
}

fn ldr_reg(rt: Reg, rn: Reg, rm: Reg) -> Option<u32>
    ensures { Writes (Inst.LdrReg rt rn rm) result }
{
    by_registers(0xf8, 0b01_1, 0b011_0_10, rt, rn, rm)
}

fn str_w_reg(rt: Reg, rn: Reg, rm: Reg) -> Option<u32>
    ensures { Writes (Inst.StrWReg rt rn rm) result }
{
    by_registers(0xb8, 0b00_1, 0b011_0_10, rt, rn, rm)
}

fn stur_w(rt: Reg, rn: Reg, offset: SImm9) -> Option<u32>
    ensures { Writes (Inst.SturW rt rn offset) result }
{
    if rt.enc >= 32 || rn.enc >= 32 {
        return None;
    }
    let imm = raw(offset.value as i32, 9)?;
    let w = join(0xb8, 2, 0b00);
    let w = join(w, 1, 0);
    let w = join(w, 9, imm);
    let w = join(w, 2, 0b00);
    let w = join(w, 5, rn.enc as u32);
    Some(join(w, 5, rt.enc as u32))
}

fn mov_wide(op: MoveWideOp, rd: Reg, imm: MoveWideConst) -> Option<u32>
    ensures { Writes (Inst.MovWide op rd imm) result }
{
    if rd.enc >= 32 || imm.shift >= 4 {
        return None;
    }
    let head = match op {
        MoveWideOp::MovZ => 0xd2,
        MoveWideOp::MovK => 0xf2,
    };
    let w = join(head, 1, 1);
    let w = join(w, 2, imm.shift as u32);
    let w = join(w, 16, imm.bits as u32);
    Some(join(w, 5, rd.enc as u32))
}

// PACI or AUTI, by the bits before the key's.
fn pauth(head: u32, key: Key, modifier: Modifier) -> u32
    requires { head < 2 ^ 25 }
    ensures { result ≡ after head ((1, key_bit_of key) ∷ (1, sp_bit modifier) ∷ (5, 0b11111) ∷ []) }
{
    let w = join(head, 1, key_bit(key));
    let w = join(w, 1, modifier as u32);
    join(w, 5, 0b11111)
}

fn paci(key: Key, modifier: Modifier) -> u32
    ensures { result ≡ word (Inst.Paci key modifier) }
{
    pauth(0xd503_23 << 1, key, modifier)
}

fn auti(key: Key, modifier: Modifier) -> u32
    ensures { result ≡ word (Inst.Auti key modifier) }
{
    pauth(0xd503_23 << 1 | 1, key, modifier)
}

fn ret_auth(key: Key) -> u32
    ensures { result ≡ word (Inst.RetAuth key) }
{
    let w = join(0xd65f08 >> 3, 1, key_bit(key));
    join(w, 10, 0b11111_11111)
}

fn b_gt(offset: i32) -> Option<u32>
    ensures { Writes (Inst.BGt offset) result }
{
    let imm = raw(offset, 19)?;
    let w = join(0x54, 19, imm);
    Some(join(w, 5, 0b0_1100))
}

// The word of a named instruction, if it has one.
pub(crate) fn named(i: Inst) -> Option<u32>
    ensures { Writes i result }
{
    match i {
        Inst::AddSubImm { op, rd, rn, imm } => add_sub_imm(op, rd, rn, imm),
        Inst::AddSubExt { op, rd, rn, rm } => add_sub_ext(op, rd, rn, rm),
        Inst::AddsShifted { rd, rn, rm } => adds_shifted(rd, rn, rm),
        Inst::Pair {
            dir,
            class,
            mode,
            rt,
            rt2,
            rn,
            offset,
        } => pair(dir, class, mode, rt, rt2, rn, offset),
        Inst::Single {
            dir,
            class,
            mode,
            rt,
            rn,
            offset,
        } => single(dir, class, mode, rt, rn, offset),
        Inst::LdrUImm { rt, rn, offset } => ldr_uimm(rt, rn, offset),
        Inst::LdrReg { rt, rn, rm } => ldr_reg(rt, rn, rm),
        Inst::StrWReg { rt, rn, rm } => str_w_reg(rt, rn, rm),
        Inst::SturW { rt, rn, offset } => stur_w(rt, rn, offset),
        Inst::MovWide { op, rd, imm } => mov_wide(op, rd, imm),
        Inst::Paci { key, modifier } => Some(paci(key, modifier)),
        Inst::Auti { key, modifier } => Some(auti(key, modifier)),
        Inst::BtiC => Some(0xd503245f),
        Inst::Ret => Some(0xd65f03c0),
        Inst::RetAuth { key } => Some(ret_auth(key)),
        Inst::BGt { offset } => b_gt(offset),
        Inst::Other(_) => None,
    }
}
