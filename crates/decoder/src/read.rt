// The reader: by bits 31 to 24 to one small reader for each class of instructions.
// A reader's parameters are what those bits say, and the word.
ghost use Rattle.std.specs.Prelude.{◌≡◌, ◌<◌};
ghost use Rattle.decoder.specs.Reading.{add_sub_ext_of, add_sub_imm_of, adds_shifted_of, branch, dir_of, field_of, hint, indexed, key_of, ldr_reg_of, ldr_u_imm, load_x_of, mov_wide_of, pair, pair_post_of, pair_pre_of, reading, reg_of, ret, single, store_w_of};

use crate::bits::{field, signed};
use crate::clash::{pair_clash, single_clash};
use a64::imm::*;
use a64::inst::*;

// The register whose number stands from bit `at` up.
fn reg(w: u32, at: u32) -> Reg
    requires { at < 32 }
    ensures { result ≡ reg_of w at }
{
    Reg {
        enc: field(w, at, 5) as u8,
    }
}

// Whether a word stores or loads.
fn dir(w: u32) -> Dir
    ensures { result ≡ dir_of (field_of w 22 1) }
{
    if field(w, 22, 1) == 0 {
        Dir::Store
    } else {
        Dir::Load
    }
}

// The key that stands at bit `at`.
fn key(w: u32, at: u32) -> Key
    requires { at < 32 }
    ensures { result ≡ key_of (field_of w at 1) }
{
    if field(w, at, 1) == 0 { Key::A } else { Key::B }
}

fn add_sub_imm(op: AddSub, w: u32) -> Inst
    ensures { result ≡ add_sub_imm_of op w }
{
    if field(w, 23, 1) != 0 {
        return Inst::Other(w);
    }
    let imm = Imm12 {
        bits: field(w, 10, 12) as u16,
        shift12: field(w, 22, 1) == 1,
    };
    Inst::AddSubImm {
        op,
        rd: reg(w, 0),
        rn: reg(w, 5),
        imm,
    }
}

fn add_sub_ext(op: AddSub, w: u32) -> Inst
    ensures { result ≡ add_sub_ext_of op w }
{
    if field(w, 21, 3) == 1 && field(w, 10, 6) == 0b011_000 {
        Inst::AddSubExt {
            op,
            rd: reg(w, 0),
            rn: reg(w, 5),
            rm: reg(w, 16),
        }
    } else {
        Inst::Other(w)
    }
}

fn pair_of(class: PairClass, mode: PairMode, w: u32) -> Inst
    ensures { result ≡ pair class mode w }
{
    let dir = dir(w);
    let rt = reg(w, 0);
    let rt2 = reg(w, 10);
    let rn = reg(w, 5);
    if pair_clash(dir, class, mode, rt, rt2, rn) {
        return Inst::Other(w);
    }
    let offset = SImm7Scaled {
        value: signed(8 * field(w, 15, 7), 10) as i16,
    };
    Inst::Pair {
        dir,
        class,
        mode,
        rt,
        rt2,
        rn,
        offset,
    }
}

fn adds_shifted(w: u32) -> Inst
    ensures { result ≡ adds_shifted_of w }
{
    if field(w, 21, 3) == 0 && field(w, 10, 6) == 0 {
        Inst::AddsShifted {
            rd: reg(w, 0),
            rn: reg(w, 5),
            rm: reg(w, 16),
        }
    } else {
        Inst::Other(w)
    }
}

fn pair_post(class: PairClass, w: u32) -> Inst
    ensures { result ≡ pair_post_of class w }
{
    if field(w, 23, 1) == 1 {
        pair_of(class, PairMode::Post, w)
    } else {
        Inst::Other(w)
    }
}

fn pair_pre(class: PairClass, w: u32) -> Inst
    ensures { result ≡ pair_pre_of class w }
{
    if field(w, 23, 1) == 1 {
        pair_of(class, PairMode::Pre, w)
    } else {
        pair_of(class, PairMode::Offset, w)
    }
}

fn indexed_by(class: Class, mode: Mode, w: u32) -> Inst
    ensures { result ≡ indexed class mode w }
{
    let dir = dir(w);
    let rt = reg(w, 0);
    let rn = reg(w, 5);
    if single_clash(class, rt, rn) {
        return Inst::Other(w);
    }
    let offset = SImm9 {
        value: signed(field(w, 12, 9), 9) as i16,
    };
    Inst::Single {
        dir,
        class,
        mode,
        rt,
        rn,
        offset,
    }
}

fn single_of(class: Class, w: u32) -> Inst
    ensures { result ≡ single class w }
{
    let wide = match class {
        Class::X => 0,
        Class::D => 0,
        Class::Q => 1,
    };
    if field(w, 23, 1) == wide && field(w, 21, 1) == 0 {
        match field(w, 10, 2) {
            3 => indexed_by(class, Mode::Pre, w),
            1 => indexed_by(class, Mode::Post, w),
            _ => Inst::Other(w),
        }
    } else {
        Inst::Other(w)
    }
}

fn ldr_reg(w: u32) -> Inst
    ensures { result ≡ ldr_reg_of w }
{
    if field(w, 22, 2) == 1 && field(w, 10, 6) == 0b011_0_10 {
        Inst::LdrReg {
            rt: reg(w, 0),
            rn: reg(w, 5),
            rm: reg(w, 16),
        }
    } else {
        Inst::Other(w)
    }
}

fn load_x(w: u32) -> Inst
    ensures { result ≡ load_x_of w }
{
    if field(w, 21, 1) == 1 {
        ldr_reg(w)
    } else {
        single_of(Class::X, w)
    }
}

fn ldr_uimm(w: u32) -> Inst
    ensures { result ≡ ldr_u_imm w }
{
    if field(w, 22, 2) == 1 {
        let offset = UImm12Scaled {
            value: 8 * field(w, 10, 12) as u16,
        };
        Inst::LdrUImm {
            rt: reg(w, 0),
            rn: reg(w, 5),
            offset,
        }
    } else {
        Inst::Other(w)
    }
}

fn store_w(w: u32) -> Inst
    ensures { result ≡ store_w_of w }
{
    let rt = reg(w, 0);
    let rn = reg(w, 5);
    if field(w, 22, 2) != 0 {
        Inst::Other(w)
    } else if field(w, 21, 1) == 1 {
        if field(w, 10, 6) == 0b011_0_10 {
            Inst::StrWReg {
                rt,
                rn,
                rm: reg(w, 16),
            }
        } else {
            Inst::Other(w)
        }
    } else if field(w, 10, 2) == 0 {
        Inst::SturW {
            rt,
            rn,
            offset: SImm9 {
                value: signed(field(w, 12, 9), 9) as i16,
            },
        }
    } else {
        Inst::Other(w)
    }
}

fn mov_wide(op: MoveWideOp, w: u32) -> Inst
    ensures { result ≡ mov_wide_of op w }
{
    if field(w, 23, 1) == 1 {
        let imm = MoveWideConst {
            bits: field(w, 5, 16) as u16,
            shift: field(w, 21, 2) as u8,
        };
        Inst::MovWide {
            op,
            rd: reg(w, 0),
            imm,
        }
    } else {
        Inst::Other(w)
    }
}

fn hint_of(w: u32) -> Inst
    ensures { result ≡ hint w }
{
    if field(w, 0, 24) == 0x03245f {
        return Inst::BtiC;
    }
    if field(w, 12, 12) == 0x032 && field(w, 8, 4) == 3 && field(w, 0, 5) == 31 {
        let key = key(w, 6);
        let modifier = if field(w, 5, 1) == 0 {
            Modifier::Zero
        } else {
            Modifier::Sp
        };
        if field(w, 7, 1) == 0 {
            Inst::Paci { key, modifier }
        } else {
            Inst::Auti { key, modifier }
        }
    } else {
        Inst::Other(w)
    }
}

fn ret_of(w: u32) -> Inst
    ensures { result ≡ ret w }
{
    if field(w, 0, 24) == 0x5f03c0 {
        return Inst::Ret;
    }
    if field(w, 11, 13) == 0xbe1 && field(w, 0, 10) == 0x3ff {
        Inst::RetAuth { key: key(w, 10) }
    } else {
        Inst::Other(w)
    }
}

fn b_gt(w: u32) -> Inst
    ensures { result ≡ branch w }
{
    if field(w, 0, 5) == 12 {
        Inst::BGt {
            offset: signed(field(w, 5, 19), 19),
        }
    } else {
        Inst::Other(w)
    }
}

pub(crate) fn by_head(w: u32) -> Inst
    ensures { result ≡ reading w }
{
    match w >> 24 {
        0x91 => add_sub_imm(AddSub::Add, w),
        0xd1 => add_sub_imm(AddSub::Sub, w),
        0x8b => add_sub_ext(AddSub::Add, w),
        0xcb => add_sub_ext(AddSub::Sub, w),
        0xab => adds_shifted(w),
        0xa8 => pair_post(PairClass::X, w),
        0xa9 => pair_pre(PairClass::X, w),
        0x6c => pair_post(PairClass::D, w),
        0x6d => pair_pre(PairClass::D, w),
        0xf8 => load_x(w),
        0xfc => single_of(Class::D, w),
        0x3c => single_of(Class::Q, w),
        0xf9 => ldr_uimm(w),
        0xb8 => store_w(w),
        0xd2 => mov_wide(MoveWideOp::MovZ, w),
        0xf2 => mov_wide(MoveWideOp::MovK, w),
        0xd5 => hint_of(w),
        0xd6 => ret_of(w),
        0x54 => b_gt(w),
        _ => Inst::Other(w),
    }
}
