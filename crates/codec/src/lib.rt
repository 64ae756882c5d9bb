// Words of AArch64 and the instructions that they read as.
#![tactic(auto)]

ghost use Rattle.std.specs.Prelude.{◌≡◌, ℕ, Ok, MatchOption, MatchResult};
ghost use Rattle.a64.specs.Words.{Reads};
ghost use Rattle.codec.specs.Unread.{unread};
ghost use Rattle.refusal.specs.Told.{told};

mod bits;
mod write;

use a64::inst::Inst;
pub use decoder::decode;
use refusal::{Cause, Layer, Refusal};

// The word that reads as `i`, if there is one.
fn word_of(i: Inst) -> Option<u32>
    ensures { MatchOption result ((w : ℕ) → Reads w i → ⊥) (λ w. Reads w i) }
{
    if let Inst::Other(w) = i {
        return match decode(w) {
            Inst::Other(_) => Some(w),
            _ => None,
        };
    }
    write::named(i)
}

// The one word that reads as `i`, or a refusal where there is none.
pub fn encode(i: Inst) -> Result<u32, Refusal>
    ensures gives { (w : ℕ) → Reads w i → result ≡ Ok w }
    ensures only { MatchResult result (λ w. Reads w i) (λ e. (told e ≡ unread) × ((w : ℕ) → Reads w i → ⊥)) }
{
    word_of(i).ok_or(Refusal {
        cause: Cause::NoReading,
        layer: Layer::Sink,
        place: 0,
    })
}
