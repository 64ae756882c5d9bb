// Numbers, written in digits.
ghost use Rattle.std.specs.Prelude.{◌≡◌, ◌^◌, ◌≤◌};
ghost use Rattle.numerals.specs.Numbers.{below, code_of, longer_by, negative, number_of, radix_of, signed_of, value_in};

// What digits are written in.
#[derive(Clone, Copy)]
enum Base {
    Decimal,
    Hexadecimal,
}

impl Base {
    fn radix(self) -> u32
        ensures value { result ≡ radix_of self }
        ensures low { 2 ≤ result }
        ensures high { result ≤ 36 }
    {
        match self {
            Base::Decimal => 10,
            Base::Hexadecimal => 16,
        }
    }
}

// The number with one digit more, if it has 64 bits.
fn longer(n: u64, b: u8, base: Base) -> Option<u64>
    ensures { result ≡ longer_by (radix_of base) n b }
{
    let d = char::from(b).to_digit(base.radix())?;
    n.checked_mul(u64::from(base.radix()))?
        .checked_add(u64::from(d))
}

fn digits(s: &[u8], base: Base) -> Option<u64>
    ensures { result ≡ value_in (radix_of base) s.now }
{
    if s.is_empty() {
        return None;
    }
    let mut n = 0;
    for b in s {
        n = longer(n, *b, base)?;
    }
    Some(n)
}

// A decimal number, or a hexadecimal one after 0x.
pub fn number(word: &[u8]) -> Option<u64>
    ensures { result ≡ number_of word.now }
{
    match word {
        [b'0', b'x', hex @ ..] => digits(hex, Base::Hexadecimal),
        _ => digits(word, Base::Decimal),
    }
}

fn narrow(n: Option<u64>) -> Option<u32>
    ensures { result ≡ below (2 ^ 32) n }
{
    u32::try_from(n?).ok()
}

// A function for each width, as `try_from` is all of it.
pub fn number32(word: &[u8]) -> Option<u32>
    ensures { result ≡ below (2 ^ 32) (number_of word.now) }
{
    narrow(number(word))
}

pub fn number8(word: &[u8]) -> Option<u8>
    ensures { result ≡ below (2 ^ 8) (number_of word.now) }
{
    u8::try_from(number(word)?).ok()
}

// A code word: eight hexadecimal digits.
pub fn code_word(word: &[u8]) -> Option<u32>
    ensures { result ≡ code_of word.now }
{
    if word.len() != 8 {
        return None;
    }
    narrow(digits(word, Base::Hexadecimal))
}

fn below_zero(n: Option<u64>) -> Option<i64>
    ensures { result ≡ negative n }
{
    i64::try_from(-i128::from(n?)).ok()
}

// A number, or one below zero after a minus.
pub fn signed(word: &[u8]) -> Option<i64>
    ensures { result ≡ signed_of word.now }
{
    match word {
        [b'-', n @ ..] => below_zero(number(n)),
        _ => i64::try_from(number(word)?).ok(),
    }
}
