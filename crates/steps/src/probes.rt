// Probes of the stack, one in each guard.
ghost use Rattle.std.specs.Prelude.{◌≡◌, ◌*◌, ◌^◌, ◌<◌};
ghost use Rattle.item_list.specs.Items.{code};
ghost use Rattle.item_list.specs.Lists.{Puts};
ghost use Rattle.steps.specs.Probes.{gen_inline_probestack_of, gen_probestack_loop_of, gen_probestack_unroll_of, stack_probe_loop_of};
ghost use Rattle.a64.specs.Operands.{imm12_of};

use crate::adjust::{load_constant, sp_by};
use a64::imm::{Imm12, SImm9};
use a64::inst::{AddSub, Inst, Reg};
use item_list::ItemList;

// Sizes and list are parameters of their own: a frame's size and its guard meet here alone.

// So many probes at most stand one by one.
const PROBE_MAX_UNROLL: u32 = 3;

fn gen_probestack_unroll(guard_size: u32, probe_count: u32, list: &mut ItemList)
    requires { guard_size * probe_count < 2 ^ 32 }
    ensures { Puts list.old list.new (code (gen_probestack_unroll_of guard_size probe_count)) }
{
    for _ in 0..probe_count {
        sp_by(AddSub::Sub, guard_size, list);
        // stur wzr, [sp]
        list.inst(Inst::SturW {
            rt: Reg::ZERO,
            rn: Reg::SP,
            offset: SImm9 { value: 0 },
        });
    }
    sp_by(AddSub::Add, guard_size * probe_count, list);
}

// The loop itself, from x16 at 0 down to x17 below.
fn stack_probe_loop(guard_size: u32, list: &mut ItemList)
    ensures { Puts list.old list.new (code (stack_probe_loop_of (imm12_of guard_size))) }
{
    if let Some(step) = Imm12::maybe_from_u64(guard_size as u64) {
        // sub x16, x16, #step
        list.inst(Inst::AddSubImm {
            op: AddSub::Sub,
            rd: Reg::SPILLTMP,
            rn: Reg::SPILLTMP,
            imm: step,
        });
        // str wzr, [sp, x16]
        list.inst(Inst::StrWReg {
            rt: Reg::ZERO,
            rn: Reg::SP,
            rm: Reg::SPILLTMP,
        });
        // adds xzr, x16, x17
        list.inst(Inst::AddsShifted {
            rd: Reg::ZERO,
            rn: Reg::SPILLTMP,
            rm: Reg::TMP2,
        });
        // b.gt to the first of these
        list.inst(Inst::BGt { offset: -3 });
    }
}

fn gen_probestack_loop(frame_size: u32, guard_size: u32, list: &mut ItemList)
    ensures { Puts list.old list.new (code (gen_probestack_loop_of frame_size guard_size)) }
{
    load_constant(Reg::SPILLTMP, 0, list);
    load_constant(Reg::TMP2, frame_size as u64, list);
    stack_probe_loop(guard_size, list);
}

pub fn inline_probestack(frame_size: u32, guard_size: u32, list: &mut ItemList)
    ensures { Puts list.old list.new (code (gen_inline_probestack_of frame_size guard_size)) }
{
    if guard_size == 0 {
        return;
    }
    let probe_count = frame_size / guard_size;
    if probe_count == 0 {
        // No probe necessary.
    } else if probe_count <= PROBE_MAX_UNROLL {
        gen_probestack_unroll(guard_size, probe_count, list);
    } else {
        gen_probestack_loop(frame_size, guard_size, list);
    }
}
