// The pieces of an epilogue, in the order in which they run.
// Layout and list are two parameters: a struct of both would put into each contract that its layout stays.
#![tactic(auto, using(crate::proofs::Putting::puts))]

ghost use Rattle.item_list.specs.Items.{code};
ghost use Rattle.item_list.specs.Lists.{Puts};
ghost use Rattle.frame.specs.Closes.{combined, frame_popped};
ghost use Rattle.frame.specs.Pieces.{epilogue as epilogue_of, gen_clobber_restore_of, gen_epilogue_frame_restore_of, gen_return_of, restore_slots, authenticated_ret_of};
ghost use Rattle.layout.specs.Slots.{slots_of};
ghost use Rattle.sheet.specs.Checks.{plain};
ghost use Rattle.std.specs.Prelude.{◌≡◌};

use crate::forms::move_pair;
use crate::parts::{api_key, callee_pop_size, has_setup, stack_size};
use crate::slots::at::slot_at;
use crate::slots::moves::move_slot;
use a64::inst::{AddSub, ApiKey, Dir, Inst, Modifier, PairClass, Reg};
use item_list::ItemList;
use layout::FrameLayout;
use steps::adjust::sp_by;

// The lowest slot is popped first. By number: an iterator of slots would be one more type.
#[tactic(auto, using(crate::proofs::Putting::puts, crate::proofs::SlotLaws::slot_count, crate::proofs::SlotLaws::restored_more, std::proofs::lemmas::List::take_all))]
fn restore_all(layout: &FrameLayout, list: &mut ItemList)
    ensures { Puts list.old list.new (code (restore_slots (slots_of (plain layout.now.sheet)))) }
{
    for k in 0..layout.clobber_size / 16 {
        list.inst(move_slot(Dir::Load, slot_at(layout, k as usize)));
    }
}

pub(crate) fn clobber_restore(layout: &FrameLayout, list: &mut ItemList)
    ensures { Puts list.old list.new (code (gen_clobber_restore_of (plain layout.now.sheet))) }
{
    sp_by(AddSub::Add, stack_size(layout), list);
    restore_all(layout, list);
}

// FP and LR popped.
fn pop_frame(layout: &FrameLayout, list: &mut ItemList)
    ensures { Puts list.old list.new (code (frame_popped (plain layout.now.sheet))) }
{
    if has_setup(layout) {
        // ldp fp, lr, [sp], #16
        list.inst(move_pair(Dir::Load, PairClass::X, Reg::FP, Reg::LR));
    }
}

pub(crate) fn epilogue_frame_restore(layout: &FrameLayout, list: &mut ItemList)
    ensures { Puts list.old list.new (code (gen_epilogue_frame_restore_of (plain layout.now.sheet))) }
{
    pop_frame(layout, list);
    sp_by(AddSub::Add, callee_pop_size(layout), list);
}

// RETAA and RETAB check with SP, and not every core has them.
fn is_combined(key: ApiKey, is_hint: bool) -> bool
    ensures { result ≡ combined key.modifier is_hint }
{
    key.modifier == Modifier::Sp && !is_hint
}

fn authenticated_ret(key: ApiKey, is_hint: bool, list: &mut ItemList)
    ensures { Puts list.old list.new (code (authenticated_ret_of key is_hint)) }
{
    if is_combined(key, is_hint) {
        list.inst(Inst::RetAuth { key: key.key });
    } else {
        list.inst(Inst::Auti {
            key: key.key,
            modifier: key.modifier,
        });
        list.inst(Inst::Ret);
    }
}

pub(crate) fn list_return(layout: &FrameLayout, list: &mut ItemList)
    ensures { Puts list.old list.new (code (gen_return_of (plain layout.now.sheet))) }
{
    match api_key(layout) {
        Some(key) => authenticated_ret(key, !layout.sheet.flags.has_pauth, list),
        None => list.inst(Inst::Ret),
    }
}

#[tactic(auto, using(crate::proofs::Putting::puts), unfolding(crate::specs::Pieces::epilogue))]
pub(crate) fn list_epilogue(layout: &FrameLayout, list: &mut ItemList)
    ensures { Puts list.old list.new (epilogue_of (plain layout.now.sheet)) }
{
    clobber_restore(layout, list);
    epilogue_frame_restore(layout, list);
    list_return(layout, list);
}
