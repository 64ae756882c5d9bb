// Single bits of a mask.
ghost use Rattle.std.specs.Prelude.{◌≡◌, ℕ, ◌<◌, ◌==◌, ◌≢◌};
ghost use Rattle.codes.specs.Bit.{bit};

pub(crate) fn with_bit(m: u32, k: u8) -> u32
    requires { k < 32 }
    ensures there { bit result k ≡ 1 }
    ensures others { (j : ℕ) → (j ≢ k) → bit result j ≡ bit m j }
{
    m | (1 << k)
}

// Beyond a mask's 32 bits none is set.
pub fn has_bit(m: u32, k: u8) -> bool
    ensures { result ≡ (bit m k == 1) }
{
    k < 32 && (m >> k) & 1 == 1
}
