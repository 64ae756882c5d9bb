// The parts of a word between separators.
ghost use Rattle.std.specs.Iterator.{at_most};
ghost use Rattle.std.specs.Option.{option_map};
ghost use Rattle.std.specs.Prelude.{◌≡◌, Some};
ghost use Rattle.text.specs.Cuts.{after_part, first_part, parts_at_most};

use crate::find;

// Not the slices' `split`, whose contract speaks of a closure.
#[derive(Drop)]
pub struct Parts<'a> {
    rest: Option<&'a [u8]>,
    separator: u8,
}

impl<'a> Parts<'a> {
    pub fn new(word: &'a [u8], separator: u8) -> Parts<'a>
        ensures rest { option_map (λ x. x.now) result.rest ≡ Some word.now }
        ensures separator { result.separator ≡ separator }
    {
        Parts {
            rest: Some(word),
            separator,
        }
    }
}

impl<'a> Iterator for Parts<'a> {
    type Item = &'a [u8];

    // The first part, and what follows its separator, if there is one.
    ghost next_gives = { λ s part t. (option_map (λ x. x.now) part ≡ first_part s.separator (option_map (λ x. x.now) s.rest)) × (option_map (λ x. x.now) t.rest ≡ after_part s.separator (option_map (λ x. x.now) s.rest)) × (t.separator ≡ s.separator) };

    ghost remaining = { λ s. at_most (parts_at_most (option_map (λ x. x.now) s.rest)) };

    fn next(&mut self) -> Option<&'a [u8]> {
        let s = self.rest?;
        let (part, rest) = find::cut(s, self.separator);
        self.rest = rest;
        Some(part)
    }
}
