// The slots of a layout, from the lowest up.
ghost use Rattle.std.specs.Prelude.{◌≡◌, ◌+◌, ◌*◌, ◌<◌, map, length, slice_index_or};
ghost use Rattle.frame.specs.Codes.{numbers, twos, vector_slots_of};
ghost use Rattle.frame.specs.Steps.{as_slot};
ghost use Rattle.layout.specs.Slots.{one_x, slots_of};
ghost use Rattle.sheet.specs.Checks.{plain};
ghost use Rattle.sheet.specs.Saved.{saved_ints_of, saved_vecs_of};

use super::SaveSlot;
use super::saved::{Saved, class_of};
use a64::inst::{Class, PairClass};
use layout::FrameLayout;
use sheet::types::CallConv;

// Slot k of registers that are saved by twos.
fn two_slot(class: PairClass, codes: &[u8], k: usize) -> SaveSlot
    requires { 2 * k < length codes.now }
    ensures { as_slot result ≡ slice_index_or (twos class (numbers codes.now)) k (one_x 0) }
{
    let first = Saved::of(codes[2 * k]);
    match codes.get(2 * k + 1) {
        Some(second) => SaveSlot::Pair(class, first, Saved::of(*second)),
        None => SaveSlot::One(class_of(class), first),
    }
}

// The codes of the saved integers, and of the saved vectors.
fn saved_codes(layout: &FrameLayout) -> (&[u8], &[u8])
    ensures ints { result.0.now ≡ saved_ints_of (plain layout.now.sheet) }
    ensures vecs { result.1.now ≡ map (λ n. 64 + n) (saved_vecs_of (plain layout.now.sheet)) }
{
    layout
        .clobbered_callee_saves
        .as_slice()
        .split_at(layout.int_saves)
}

// How many slots the vectors take.
#[tactic(auto, using(crate::proofs::SlotLaws::vectors_count))]
fn vector_slots(whole: bool, codes: &[u8]) -> usize
    ensures { result ≡ length (vector_slots_of whole (numbers codes.now)) }
{
    if whole {
        codes.len()
    } else {
        codes.len().div_ceil(2)
    }
}

// Slot k of the vectors.
#[tactic(auto, using(crate::proofs::SlotLaws::vectors_count))]
fn vector_slot(whole: bool, codes: &[u8], k: usize) -> SaveSlot
    requires { k < length (vector_slots_of whole (numbers codes.now)) }
    ensures { as_slot result ≡ slice_index_or (vector_slots_of whole (numbers codes.now)) k (one_x 0) }
{
    if whole {
        SaveSlot::One(Class::Q, Saved::of(codes[k]))
    } else {
        two_slot(PairClass::D, codes, k)
    }
}

// Slot k of the save area.
pub(crate) fn slot_at(layout: &FrameLayout, k: usize) -> SaveSlot
    requires { k < length (slots_of (plain layout.now.sheet)) }
    ensures { as_slot result ≡ slice_index_or (slots_of (plain layout.now.sheet)) k (one_x 0) }
{
    let (ints, vecs) = saved_codes(layout);
    let whole = layout.sheet.call_conv == CallConv::PreserveAll;
    let below = vector_slots(whole, vecs);
    if k < below {
        vector_slot(whole, vecs, k)
    } else {
        two_slot(PairClass::X, ints, k - below)
    }
}
