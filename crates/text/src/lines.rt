// The lines of a text, each without its end.
ghost use Rattle.std.specs.Iterator.{at_most};
ghost use Rattle.std.specs.Option.{option_map};
ghost use Rattle.text.specs.Cuts.{after_line, first_line};
ghost use Rattle.std.specs.Prelude.{◌≡◌, length};

use crate::find;

#[derive(Drop)]
pub struct Lines<'a> {
    rest: &'a [u8],
}

impl<'a> Lines<'a> {
    pub fn new(text: &'a [u8]) -> Lines<'a>
        ensures { result.rest.now ≡ text.now }
    {
        Lines { rest: text }
    }
}

impl<'a> Iterator for Lines<'a> {
    type Item = &'a [u8];

    // The first line, and what follows it.
    ghost next_gives = { λ s line t. (option_map (λ x. x.now) line ≡ first_line s.rest.now) × (t.rest.now ≡ after_line s.rest.now) };

    ghost remaining = { λ s. at_most (length s.rest.now) };

    fn next(&mut self) -> Option<&'a [u8]> {
        let s = self.rest;
        if s.is_empty() {
            return None;
        }
        let (line, rest) = find::cut(s, b'\n');
        self.rest = rest.unwrap_or(&[]);
        Some(line)
    }
}
