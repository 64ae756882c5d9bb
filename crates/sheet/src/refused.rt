// The refusals of a sheet.
ghost use Rattle.std.specs.Prelude.{◌≡◌};
ghost use Rattle.refusal.specs.declared.Layer.{Layer};

use refusal::{Cause, Layer, Refusal};

pub(crate) fn refusal_at(cause: Cause, place: usize) -> Refusal
    ensures { result ≡ record { cause = cause; layer = Layer.Sheet; place = place } }
{
    Refusal {
        cause,
        layer: Layer::Sheet,
        place: place as u64,
    }
}

// A refusal that speaks of no place.
pub(crate) fn refusal(cause: Cause) -> Refusal
    ensures { result ≡ record { cause = cause; layer = Layer.Sheet; place = 0 } }
{
    refusal_at(cause, 0)
}
