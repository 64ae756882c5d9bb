// Fields joined to a word, and two's complement.
ghost use Rattle.std.specs.Prelude.{◌≡◌, ◌+◌, ◌-◌, ◌*◌, ◌^◌, ◌<◌, MatchOption};
ghost use Rattle.a64.specs.Signed.{Within, twos};

// `high` with `low` behind it as its last `width` bits.
pub(crate) fn join(high: u32, width: u32, low: u32) -> u32
    requires { (width < 32) × ((low < 2 ^ width) × (high < 2 ^ (32 - width))) }
    ensures { result ≡ high * 2 ^ width + low }
{
    (high << width) | low
}

// A signed number as `width` bits, in two's complement, if it has no more.
pub(crate) fn raw(v: i32, width: u32) -> Option<u32>
    requires { (0 < width) × (width < 31) }
    ensures { MatchOption result (Within width v → ⊥) (λ n. Within width v × (n ≡ twos width v)) }
{
    let half = 1 << (width - 1);
    if v < 0 {
        let m = v.unsigned_abs();
        if m <= half {
            Some((1 << width) - m)
        } else {
            None
        }
    } else {
        let n = v as u32;
        if n < half { Some(n) } else { None }
    }
}
