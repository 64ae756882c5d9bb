// The pieces of a laid-out frame, and its whole prologue and epilogue. A method each, by the names that the crate has;
// layout and sink are two parameters, since one layout goes to several sinks.
ghost use Rattle.frame.specs.Pieces.{epilogue, gen_clobber_restore_of, gen_clobber_save_of, gen_epilogue_frame_restore_of, gen_prologue_frame_setup_of, gen_return_of, prologue};
ghost use Rattle.item_list.specs.Items.{code};
ghost use Rattle.sheet.specs.Checks.{plain};
ghost use Rattle.sink.specs.Items.{PutPiece};

use crate::Emitter;
use crate::part::Part;
use frame::piece::Piece;
use layout::FrameLayout;
use refusal::Refusal;
use sink::sink::{Priced, Sink};

impl Emitter {
    // The landing pad and the seal, then FP and LR.
    pub fn gen_prologue_frame_setup<S: Sink>(
        &mut self,
        layout: &FrameLayout,
        sink: &mut S,
    ) -> Result<(), Refusal>
        ensures { PutPiece ⟦<S as Priced>⟧.prices (S.held sink.old) (gen_prologue_frame_setup_of (plain layout.now.sheet)) (S.held sink.new) result }
    {
        self.put(Part::Frame(Piece::PrologueFrameSetup, layout), sink)
    }

    // Room for a tail call, the saved registers, the storage.
    pub fn gen_clobber_save<S: Sink>(
        &mut self,
        layout: &FrameLayout,
        sink: &mut S,
    ) -> Result<(), Refusal>
        ensures { PutPiece ⟦<S as Priced>⟧.prices (S.held sink.old) (gen_clobber_save_of (plain layout.now.sheet)) (S.held sink.new) result }
    {
        self.put(Part::Frame(Piece::ClobberSave, layout), sink)
    }

    // The storage freed, and the registers back.
    pub fn gen_clobber_restore<S: Sink>(
        &mut self,
        layout: &FrameLayout,
        sink: &mut S,
    ) -> Result<(), Refusal>
        ensures { PutPiece ⟦<S as Priced>⟧.prices (S.held sink.old) (code (gen_clobber_restore_of (plain layout.now.sheet))) (S.held sink.new) result }
    {
        self.put(Part::Frame(Piece::ClobberRestore, layout), sink)
    }

    // FP and LR back, and what the callee gives back.
    pub fn gen_epilogue_frame_restore<S: Sink>(
        &mut self,
        layout: &FrameLayout,
        sink: &mut S,
    ) -> Result<(), Refusal>
        ensures { PutPiece ⟦<S as Priced>⟧.prices (S.held sink.old) (code (gen_epilogue_frame_restore_of (plain layout.now.sheet))) (S.held sink.new) result }
    {
        self.put(Part::Frame(Piece::EpilogueFrameRestore, layout), sink)
    }

    // The return, checked where the address is sealed.
    pub fn gen_return<S: Sink>(&mut self, layout: &FrameLayout, sink: &mut S) -> Result<(), Refusal>
        ensures { PutPiece ⟦<S as Priced>⟧.prices (S.held sink.old) (code (gen_return_of (plain layout.now.sheet))) (S.held sink.new) result }
    {
        self.put(Part::Frame(Piece::Return, layout), sink)
    }

    // Setup, with probes on the probes, then clobber save.
    pub fn put_prologue<S: Sink>(
        &mut self,
        layout: &FrameLayout,
        sink: &mut S,
    ) -> Result<(), Refusal>
        ensures { PutPiece ⟦<S as Priced>⟧.prices (S.held sink.old) (prologue (plain layout.now.sheet)) (S.held sink.new) result }
    {
        self.put(Part::Frame(Piece::Prologue, layout), sink)
    }

    // Restore, frame restore, return.
    pub fn put_epilogue<S: Sink>(
        &mut self,
        layout: &FrameLayout,
        sink: &mut S,
    ) -> Result<(), Refusal>
        ensures { PutPiece ⟦<S as Priced>⟧.prices (S.held sink.old) (epilogue (plain layout.now.sheet)) (S.held sink.new) result }
    {
        self.put(Part::Frame(Piece::Epilogue, layout), sink)
    }
}
