// The pieces by name.
ghost use Rattle.frame.specs.Named.{piece_of};
ghost use Rattle.item_list.specs.Lists.{Puts};
ghost use Rattle.sheet.specs.Checks.{plain};
ghost use Rattle.std.specs.Prelude.{◌≡◌};

use crate::closing::{clobber_restore, epilogue_frame_restore, list_epilogue, list_return};
use crate::opening::{clobber_save, list_prologue, prologue_frame_setup};
use item_list::ItemList;
use layout::FrameLayout;

// A part of a frame that can be put by itself, and the two wholes. An enum, since contracts name a piece.
#[derive(Clone, Copy)]
pub enum Piece {
    PrologueFrameSetup,
    ClobberSave,
    ClobberRestore,
    EpilogueFrameRestore,
    Return,
    Prologue,
    Epilogue,
}

// Puts a piece of a laid-out frame behind a list.
pub fn list_piece(piece: Piece, layout: &FrameLayout, list: &mut ItemList)
    ensures { Puts list.old list.new (piece_of piece (plain layout.now.sheet)) }
{
    match piece {
        Piece::PrologueFrameSetup => prologue_frame_setup(layout, list),
        Piece::ClobberSave => clobber_save(layout, list),
        Piece::ClobberRestore => clobber_restore(layout, list),
        Piece::EpilogueFrameRestore => epilogue_frame_restore(layout, list),
        Piece::Return => list_return(layout, list),
        Piece::Prologue => list_prologue(layout, list),
        Piece::Epilogue => list_epilogue(layout, list),
    }
}
