// How far a text goes before it is cut.
ghost use Rattle.std.specs.Prelude.{◌≡◌, ◌≤◌, length, take};
ghost use Rattle.std.specs.Option.{option_map};
ghost use Rattle.std.specs.List.{prefix_len};
ghost use Rattle.text.specs.Cuts.{after, blank, trimmed, up_to, word_length};

// How many bytes stand before the first that is `b`.
fn before(s: &[u8], b: u8) -> usize
    ensures place { result ≡ up_to b s.now }
    ensures within { result ≤ length s.now }
{
    s.iter().take_while(|x| **x != b).count()
}

fn is_blank(b: u8) -> bool
    ensures { result ≡ blank b }
{
    matches!(b, b' ' | b'\t' | b'\r')
}

// How many blanks a text begins with.
fn blanks(s: &[u8]) -> usize
    ensures place { result ≡ prefix_len blank s.now }
    ensures within { result ≤ length s.now }
{
    s.iter().take_while(|x| is_blank(**x)).count()
}

// How many bytes stand before the first blank.
pub(crate) fn letters(s: &[u8]) -> usize
    ensures place { result ≡ word_length s.now }
    ensures within { result ≤ length s.now }
{
    s.iter().take_while(|x| !is_blank(**x)).count()
}

// A text without the blanks that it begins with.
pub(crate) fn trim(s: &[u8]) -> &[u8]
    ensures { result.now ≡ trimmed s.now }
{
    &s[blanks(s)..]
}

// What stands before the first `b`, and what follows it, if there is one.
pub(crate) fn cut(s: &[u8], b: u8) -> (&[u8], Option<&[u8]>)
    ensures front { result.0.now ≡ take (up_to b s.now) s.now }
    ensures back { option_map (λ x. x.now) result.1 ≡ after b s.now }
{
    let end = before(s, b);
    if end < s.len() {
        (&s[..end], Some(&s[end + 1..]))
    } else {
        (s, None)
    }
}
