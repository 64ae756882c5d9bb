// The words of a line, up to a `#`.
ghost use Rattle.std.specs.Iterator.{at_most};
ghost use Rattle.std.specs.Option.{option_map};
ghost use Rattle.text.specs.Cuts.{after_word, first_word, uncommented};
ghost use Rattle.std.specs.Prelude.{◌≡◌, length};

use crate::find;

#[derive(Drop)]
pub struct Words<'a> {
    rest: &'a [u8],
}

impl<'a> Words<'a> {
    pub fn new(line: &'a [u8]) -> Words<'a>
        ensures { result.rest.now ≡ uncommented line.now }
    {
        let (rest, _) = find::cut(line, b'#');
        Words { rest }
    }
}

impl<'a> Iterator for Words<'a> {
    type Item = &'a [u8];

    // The first word, and what follows it.
    ghost next_gives = { λ s word t. (option_map (λ x. x.now) word ≡ first_word s.rest.now) × (t.rest.now ≡ after_word s.rest.now) };

    ghost remaining = { λ s. at_most (length s.rest.now) };

    fn next(&mut self) -> Option<&'a [u8]> {
        let tail = find::trim(self.rest);
        let (word, rest) = tail.split_at(find::letters(tail));
        self.rest = rest;
        if tail.is_empty() { None } else { Some(word) }
    }
}
