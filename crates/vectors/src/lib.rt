// Words that two assemblers wrote, held against the definition of words: it and the codec cannot err alike.
#![tactic(auto)]

ghost use Rattle.std.specs.Prelude.{◌≡◌, ◌+◌, length};
ghost use Rattle.vectors.specs.Known.{KnownWords, named, others};

// How many words are known: each reads as `specs/Known.antt` has it, and so decodes and encodes.
pub fn count() -> usize
    ensures count { result ≡ length named + length others }
    ensures read { KnownWords }
{
    81
}
