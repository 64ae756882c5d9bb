// What an emitter lists and then puts. An enum, since the contract of `put` names the part.
ghost use Rattle.emitter.specs.Parts.{part_of};
ghost use Rattle.item_list.specs.Lists.{Puts};
ghost use Rattle.std.specs.Prelude.{◌≡◌};

use a64::inst::Reg;
use frame::piece::{Piece, list_piece};
use item_list::ItemList;
use layout::FrameLayout;
use steps::adjust;
use steps::probes::inline_probestack;

#[derive(Clone, Copy)]
pub(crate) enum Part<'a> {
    Frame(Piece, &'a FrameLayout),
    Constant(Reg, u64),
    SpBy(i32),
    // A frame's size, and the guard's.
    Probes(u32, u32),
}

// Puts a part behind a list.
#[inline(always)]
pub(crate) fn list_part(part: Part<'_>, list: &mut ItemList)
    ensures { Puts list.old list.new (part_of part.entry) }
{
    match part {
        Part::Frame(piece, layout) => list_piece(piece, layout, list),
        Part::Constant(rd, value) => adjust::load_constant(rd, value, list),
        Part::SpBy(amount) => adjust::sp_reg_adjust(amount, list),
        Part::Probes(frame_size, guard_size) => inline_probestack(frame_size, guard_size, list),
    }
}
