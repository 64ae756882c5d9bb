// Instructions that several pieces put.
ghost use Rattle.frame.specs.Forms.{mov_fp_sp_of, move_one_of, move_pair_of};
ghost use Rattle.std.specs.Prelude.{◌≡◌};

use a64::imm::{Imm12, SImm7Scaled, SImm9};
use a64::inst::{AddSub, Class, Dir, Inst, Mode, PairClass, PairMode, Reg};

// stp ta, tb, [sp, #-16]! or ldp ta, tb, [sp], #16
pub(crate) fn move_pair(dir: Dir, class: PairClass, a: Reg, b: Reg) -> Inst
    ensures { result ≡ move_pair_of dir class a.enc b.enc }
{
    let (mode, offset) = match dir {
        Dir::Store => (PairMode::Pre, -16),
        Dir::Load => (PairMode::Post, 16),
    };
    Inst::Pair {
        dir,
        class,
        mode,
        rt: a,
        rt2: b,
        rn: Reg::SP,
        offset: SImm7Scaled { value: offset },
    }
}

// str ta, [sp, #-16]! or ldr ta, [sp], #16
pub(crate) fn move_one(dir: Dir, class: Class, a: Reg) -> Inst
    ensures { result ≡ move_one_of dir class a.enc }
{
    let (mode, offset) = match dir {
        Dir::Store => (Mode::Pre, -16),
        Dir::Load => (Mode::Post, 16),
    };
    Inst::Single {
        dir,
        class,
        mode,
        rt: a,
        rn: Reg::SP,
        offset: SImm9 { value: offset },
    }
}

// add fp, sp, #0
pub(crate) fn mov_fp_sp() -> Inst
    ensures { result ≡ mov_fp_sp_of }
{
    Inst::AddSubImm {
        op: AddSub::Add,
        rd: Reg::FP,
        rn: Reg::SP,
        imm: Imm12 {
            bits: 0,
            shift12: false,
        },
    }
}
