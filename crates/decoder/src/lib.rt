// Words of AArch64 read as instructions.
#![tactic(auto)]

ghost use Rattle.a64.specs.Words.{Reads};
ghost use Rattle.a64.specs.declared.inst.Inst.{Inst as Instruction};
ghost use Rattle.decoder.specs.Reading.{reading};
ghost use Rattle.std.specs.Prelude.{◌≡◌};

mod bits;
pub mod clash;
mod read;

use a64::inst::Inst;

// The reading of a word: the only one.
pub fn decode(w: u32) -> Inst
    ensures reading { result ≡ reading w }
    ensures reads { Reads w result }
    ensures only { (i : Instruction) → Reads w i → i ≡ result }
{
    read::by_head(w)
}
