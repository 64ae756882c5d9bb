// One slot saved, and one restored. Layout, offset and list are parameters of their own, as in `opening`.
#![tactic(auto, using(crate::proofs::Putting::puts))]

ghost use Rattle.std.specs.Prelude.{◌≡◌, ◌+◌, ◌^◌, ◌<◌, ◌∷◌};
ghost use Rattle.item_list.specs.Lists.{Puts};
ghost use Rattle.frame.specs.Pieces.{noting, push, slot_notes};
ghost use Rattle.frame.specs.Steps.{as_slot, move_of};
ghost use Rattle.sheet.specs.Checks.{plain};
ghost use Rattle.sink.specs.declared.item.Item.TheVariants.{Inst as AnInst};
ghost use Rattle.notes.specs.declared.UnwindInst.TheVariants.{SaveReg};

use super::SaveSlot;
use super::saved::class_of;
use crate::forms::{move_one, move_pair};
use crate::parts::unwind;
use a64::inst::{Class, Dir, Inst};
use item_list::ItemList;
use layout::FrameLayout;
use notes::UnwindInst;

// 16 bytes of the save area, pushed or popped.
pub(crate) fn move_slot(dir: Dir, slot: SaveSlot) -> Inst
    ensures { result ≡ move_of dir (as_slot slot) }
{
    match slot {
        SaveSlot::Pair(class, a, b) => move_pair(dir, class, a.reg(), b.reg()),
        SaveSlot::One(class, a) => move_one(dir, class, a.reg()),
    }
}

fn note_saved(layout: &FrameLayout, clobber_offset: u32, reg: u8, list: &mut ItemList)
    ensures { Puts list.old list.new (noting (plain layout.now.sheet) (SaveReg clobber_offset reg)) }
{
    unwind(
        layout,
        UnwindInst::SaveReg {
            clobber_offset,
            reg,
        },
        list,
    );
}

// A whole vector has no note: unwinders know of low halves alone.
fn note_slot(layout: &FrameLayout, slot: SaveSlot, clobber_offset: u32, list: &mut ItemList)
    requires { clobber_offset + 8 < 2 ^ 32 }
    ensures { Puts list.old list.new (slot_notes (plain layout.now.sheet) (as_slot slot) clobber_offset) }
{
    match slot {
        SaveSlot::Pair(class, a, b) => {
            let class = class_of(class);
            note_saved(layout, clobber_offset, a.code(class), list);
            note_saved(layout, clobber_offset + 8, b.code(class), list);
        }
        SaveSlot::One(Class::Q, _) => {}
        SaveSlot::One(class, a) => note_saved(layout, clobber_offset, a.code(class), list),
    }
}

pub(crate) fn save_slot(
    layout: &FrameLayout,
    slot: SaveSlot,
    clobber_offset: u32,
    list: &mut ItemList,
)
    requires { clobber_offset + 8 < 2 ^ 32 }
    ensures { Puts list.old list.new (AnInst (push (as_slot slot)) ∷ slot_notes (plain layout.now.sheet) (as_slot slot) clobber_offset) }
{
    list.inst(move_slot(Dir::Store, slot));
    note_slot(layout, slot, clobber_offset, list);
}
