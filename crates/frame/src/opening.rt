// The pieces of a prologue, in the order in which they run.
// Layout and list are two parameters: a struct of both would put into each contract that its layout stays.
#![tactic(auto, using(crate::proofs::Putting::puts))]

ghost use Rattle.a64.specs.Operands.{uimm12_of};
ghost use Rattle.std.specs.Prelude.{◌≡◌, pos};
ghost use Rattle.a64.specs.declared.inst.Inst.TheVariants.{BtiC};
ghost use Rattle.frame.specs.Forms.{mov_fp_sp_of, push_pair_of, store_fp_lr};
ghost use Rattle.item_list.specs.Items.{code};
ghost use Rattle.item_list.specs.Lists.{Puts};
ghost use Rattle.frame.specs.Opens.{allocates, defines, frame_pushed, grows, moved, needs_pad_of, padded, probes};
ghost use Rattle.frame.specs.Pieces.{gen_clobber_save_of, gen_prologue_frame_setup_of, noting, prologue as prologue_of, resize_incoming_of, save_slots, sealed, select_api_key_of, tail_reload_of};
ghost use Rattle.layout.specs.Slots.{slots_of};
ghost use Rattle.notes.specs.declared.UnwindInst.TheVariants.{Aarch64SetPointerAuth};
ghost use Rattle.sheet.specs.Checks.{plain};

use crate::forms::{mov_fp_sp, move_pair};
use crate::parts::{api_key, has_setup, incoming_args_diff, probe_size, stack_size, unwind};
use crate::slots::at::slot_at;
use crate::slots::moves::save_slot;
use a64::imm::{SImm7Scaled, UImm12Scaled};
use a64::inst::{AddSub, ApiKey, Dir, Inst, Modifier, PairClass, PairMode, Reg};
use item_list::ItemList;
use layout::FrameLayout;
use notes::UnwindInst;
use sheet::types::CallConv;
use steps::adjust::{load_constant, sp_by};
use steps::probes::inline_probestack;

// bti c, where asked for.
fn landing_pad(on: bool, list: &mut ItemList)
    ensures { Puts list.old list.new (padded on) }
{
    if on {
        list.inst(Inst::BtiC);
    }
}

// PACI with SP is a landing pad itself, PACI with zero is none.
fn needs_pad(use_bti: bool, key: ApiKey) -> bool
    ensures { result ≡ needs_pad_of use_bti key.modifier }
{
    use_bti && key.modifier != Modifier::Sp
}

// Whether the return address is sealed from here on.
fn note_seal(layout: &FrameLayout, return_addresses: bool, list: &mut ItemList)
    ensures { Puts list.old list.new (noting (plain layout.now.sheet) (Aarch64SetPointerAuth return_addresses)) }
{
    unwind(
        layout,
        UnwindInst::Aarch64SetPointerAuth { return_addresses },
        list,
    );
}

// The landing pad and the seal.
fn seal(layout: &FrameLayout, list: &mut ItemList)
    ensures { Puts list.old list.new (sealed (plain layout.now.sheet) (select_api_key_of (plain layout.now.sheet))) }
{
    let use_bti = layout.sheet.flags.use_bti;
    match api_key(layout) {
        Some(key) => {
            landing_pad(needs_pad(use_bti, key), list);
            // paciasp, paciaz, pacibsp or pacibz
            list.inst(Inst::Paci {
                key: key.key,
                modifier: key.modifier,
            });
            note_seal(layout, true, list);
        }
        None => {
            landing_pad(use_bti, list);
            // The macOS unwinder asks for it.
            if layout.sheet.call_conv == CallConv::AppleAarch64 {
                note_seal(layout, false, list);
            }
        }
    }
}

// FP and LR pushed, and FP set.
fn push_frame(layout: &FrameLayout, list: &mut ItemList)
    ensures { Puts list.old list.new (frame_pushed (plain layout.now.sheet)) }
{
    if has_setup(layout) {
        // stp fp, lr, [sp, #-16]!
        list.inst(move_pair(Dir::Store, PairClass::X, Reg::FP, Reg::LR));
        unwind(
            layout,
            UnwindInst::PushFrameRegs {
                offset_upward_to_caller_sp: layout.setup_area_size,
            },
            list,
        );
        // mov fp, sp
        list.inst(mov_fp_sp());
    }
}

pub(crate) fn prologue_frame_setup(layout: &FrameLayout, list: &mut ItemList)
    ensures { Puts list.old list.new (gen_prologue_frame_setup_of (plain layout.now.sheet)) }
{
    seal(layout, list);
    push_frame(layout, list);
}

// FP from so far above SP.
#[tactic(auto, using(crate::proofs::Putting::puts), unfolding(crate::specs::Pieces::tail_reload_of))]
fn tail_reload(amount: u32, list: &mut ItemList)
    ensures { Puts list.old list.new (code (tail_reload_of amount)) }
{
    match UImm12Scaled::maybe_from_i64(i64::from(amount)) {
        // ldr fp, [sp, #offset]
        Some(offset) => list.inst(Inst::LdrUImm {
            rt: Reg::FP,
            rn: Reg::SP,
            offset,
        }),
        None => {
            load_constant(Reg::SPILLTMP, u64::from(amount), list);
            // ldr fp, [sp, x16]
            list.inst(Inst::LdrReg {
                rt: Reg::FP,
                rn: Reg::SP,
                rm: Reg::SPILLTMP,
            });
        }
    }
}

// FP and LR moved down to the new SP.
fn move_frame(layout: &FrameLayout, amount: u32, list: &mut ItemList)
    ensures { Puts list.old list.new (moved (plain layout.now.sheet) amount) }
{
    if has_setup(layout) {
        tail_reload(amount, list);
        // stp fp, lr, [sp]
        list.inst(Inst::Pair {
            dir: Dir::Store,
            class: PairClass::X,
            mode: PairMode::Offset,
            rt: Reg::FP,
            rt2: Reg::LR,
            rn: Reg::SP,
            offset: SImm7Scaled { value: 0 },
        });
        // mov fp, sp
        list.inst(mov_fp_sp());
    }
}

// Room for the arguments of a tail call, where it needs more than there is.
#[tactic(auto, using(crate::proofs::Putting::puts, std::proofs::lemmas::Bool::Decides::nat_tests))]
fn resize_incoming(layout: &FrameLayout, list: &mut ItemList)
    ensures { Puts list.old list.new (grows (plain layout.now.sheet)) }
{
    let diff = incoming_args_diff(layout);
    if diff > 0 {
        sp_by(AddSub::Sub, diff, list);
        unwind(layout, UnwindInst::StackAlloc { size: diff }, list);
        move_frame(layout, diff, list);
    }
}

// The caller's SP is the setup area and what a tail call added up from FP.
fn define_frame(layout: &FrameLayout, list: &mut ItemList)
    ensures { Puts list.old list.new (defines (plain layout.now.sheet)) }
{
    if has_setup(layout) {
        unwind(
            layout,
            UnwindInst::DefineNewFrame {
                offset_upward_to_caller_sp: layout.setup_area_size + incoming_args_diff(layout),
                offset_downward_to_clobbers: layout.clobber_size,
            },
            list,
        );
    }
}

// The highest slot is pushed first. By number, which gives the slot and its offset.
#[tactic(auto, using(crate::proofs::Putting::puts, crate::proofs::SlotLaws::slot_count, crate::proofs::SlotLaws::saved_more, std::proofs::lemmas::List::drop_all))]
fn save_all(layout: &FrameLayout, list: &mut ItemList)
    ensures { Puts list.old list.new (save_slots (plain layout.now.sheet) (slots_of (plain layout.now.sheet)) 0) }
{
    for k in (0..layout.clobber_size / 16).rev() {
        save_slot(layout, slot_at(layout, k as usize), 16 * k, list);
    }
}

// The fixed storage and the outgoing arguments.
#[tactic(auto, using(crate::proofs::Putting::puts, std::proofs::lemmas::Bool::Decides::nat_tests))]
fn allocate(layout: &FrameLayout, list: &mut ItemList)
    ensures { Puts list.old list.new (allocates (plain layout.now.sheet)) }
{
    let size = stack_size(layout);
    if size > 0 {
        sp_by(AddSub::Sub, size, list);
        unwind(layout, UnwindInst::StackAlloc { size }, list);
    }
}

pub(crate) fn clobber_save(layout: &FrameLayout, list: &mut ItemList)
    ensures { Puts list.old list.new (gen_clobber_save_of (plain layout.now.sheet)) }
{
    resize_incoming(layout, list);
    define_frame(layout, list);
    save_all(layout, list);
    allocate(layout, list);
}

fn probe_frame(layout: &FrameLayout, list: &mut ItemList)
    ensures { Puts list.old list.new (probes (plain layout.now.sheet)) }
{
    if layout.sheet.flags.inline_probes {
        inline_probestack(probe_size(layout), layout.sheet.sizes.guard, list);
    }
}

#[tactic(auto, using(crate::proofs::Putting::puts), unfolding(crate::specs::Pieces::prologue))]
pub(crate) fn list_prologue(layout: &FrameLayout, list: &mut ItemList)
    ensures { Puts list.old list.new (prologue_of (plain layout.now.sheet)) }
{
    prologue_frame_setup(layout, list);
    probe_frame(layout, list);
    clobber_save(layout, list);
}
