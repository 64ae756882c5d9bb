// Fields of a word, and the numbers that they stand for.
ghost use Rattle.std.specs.Prelude.{◌≡◌, ◌/◌, ◌%◌, ◌^◌, ◌<◌};
ghost use Rattle.a64.specs.Signed.{Within, from_twos};

// The `width` bits of `w` from bit `at` up.
pub(crate) fn field(w: u32, at: u32, width: u32) -> u32
    requires { (at < 32) × (width < 32) }
    ensures { result ≡ w / 2 ^ at % 2 ^ width }
{
    (w >> at) & ((1 << width) - 1)
}

// The number that `width` bits stand for in two's complement.
pub(crate) fn signed(n: u32, width: u32) -> i32
    requires { (0 < width) × ((width < 31) × (n < 2 ^ width)) }
    ensures value { result ≡ from_twos width n }
    ensures within { Within width result }
{
    if n < 1 << (width - 1) {
        n as i32
    } else {
        -(((1 << width) - n) as i32)
    }
}
