// The pieces that need no layout.
ghost use Rattle.emitter.specs.Put.{PutProbes};
ghost use Rattle.item_list.specs.Items.{code};
ghost use Rattle.steps.specs.Adjust.{gen_sp_reg_adjust_of, load_constant_of};
ghost use Rattle.sink.specs.Items.{PutItems, PutPiece};

use crate::Emitter;
use crate::part::Part;
use a64::inst::Reg;
use refusal::{Cause, Layer, Refusal};
use sheet::check::is_bad_guard;
use sink::sink::{Priced, Sink};

impl Emitter {
    // A 64-bit constant in a register.
    pub fn load_constant<S: Sink>(
        &mut self,
        rd: Reg,
        value: u64,
        sink: &mut S,
    ) -> Result<(), Refusal>
        ensures { PutItems ⟦<S as Priced>⟧.prices (S.held sink.old) (code (load_constant_of rd value)) (S.held sink.new) result }
    {
        self.put(Part::Constant(rd, value), sink)
    }

    // SP by a signed amount.
    pub fn gen_sp_reg_adjust<S: Sink>(&mut self, amount: i32, sink: &mut S) -> Result<(), Refusal>
        ensures { PutPiece ⟦<S as Priced>⟧.prices (S.held sink.old) (code (gen_sp_reg_adjust_of amount)) (S.held sink.new) result }
    {
        self.put(Part::SpBy(amount), sink)
    }

    // A probe for each guard that the frame passes over.
    pub fn gen_inline_probestack<S: Sink>(
        &mut self,
        frame_size: u32,
        guard_size: u32,
        sink: &mut S,
    ) -> Result<(), Refusal>
        ensures { PutProbes ⟦<S as Priced>⟧.prices (S.held sink.old) frame_size guard_size (S.held sink.new) result }
    {
        if is_bad_guard(guard_size) {
            return Err(Refusal {
                cause: Cause::Guard,
                layer: Layer::Sheet,
                place: 0,
            });
        }
        self.put(Part::Probes(frame_size, guard_size), sink)
    }
}
