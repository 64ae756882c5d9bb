// Constants in registers, and SP moved by an amount.
ghost use Rattle.std.specs.Prelude.{◌≡◌, ◌<◌};
ghost use Rattle.item_list.specs.Items.{code};
ghost use Rattle.item_list.specs.Lists.{Puts};
ghost use Rattle.steps.specs.Adjust.{gen_sp_reg_adjust_of, load_constant_of, part, sp_by_of};

use a64::imm::{Imm12, MoveWideConst};
use a64::inst::{AddSub, Inst, MoveWideOp, Reg};
use item_list::ItemList;

// The 16 bits at bit 16 * `shift`.
fn part_of(value: u64, shift: u8) -> u16
    requires { shift < 4 }
    ensures { result ≡ part value shift }
{
    ((value >> (16 * shift)) % 65536) as u16
}

// MOVZ puts the lowest part that is not zero, or 0 where there is none, and MOVK each part above it.
pub fn load_constant(rd: Reg, value: u64, list: &mut ItemList)
    ensures { Puts list.old list.new (code (load_constant_of rd value)) }
{
    let mut op = MoveWideOp::MovZ;
    for shift in 0..4 {
        let bits = part_of(value, shift);
        if bits != 0 {
            list.inst(Inst::MovWide {
                op,
                rd,
                imm: MoveWideConst { bits, shift },
            });
            op = MoveWideOp::MovK;
        }
    }
    if let MoveWideOp::MovZ = op {
        list.inst(Inst::MovWide {
            op,
            rd,
            imm: MoveWideConst { bits: 0, shift: 0 },
        });
    }
}

// SP up or down by an amount, as an immediate if it is one.
pub fn sp_by(op: AddSub, amount: u32, list: &mut ItemList)
    ensures { Puts list.old list.new (code (sp_by_of op amount)) }
{
    if amount == 0 {
        return;
    }
    match Imm12::maybe_from_u64(amount as u64) {
        Some(imm) => list.inst(Inst::AddSubImm {
            op,
            rd: Reg::SP,
            rn: Reg::SP,
            imm,
        }),
        None => {
            load_constant(Reg::SPILLTMP, amount as u64, list);
            list.inst(Inst::AddSubExt {
                op,
                rd: Reg::SP,
                rn: Reg::SP,
                rm: Reg::SPILLTMP,
            });
        }
    }
}

// SP down by a negative amount, else up.
pub fn sp_reg_adjust(amount: i32, list: &mut ItemList)
    ensures { Puts list.old list.new (code (gen_sp_reg_adjust_of amount)) }
{
    let op = if amount < 0 { AddSub::Sub } else { AddSub::Add };
    sp_by(op, amount.unsigned_abs(), list);
}
