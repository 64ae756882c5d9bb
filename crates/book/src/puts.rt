// A function put on a sink.
ghost use Rattle.std.specs.Prelude.{◌≡◌, ◌≤◌, ◌++◌, MatchResult};
ghost use Rattle.plainbook.specs.Plain.{body_of};
ghost use Rattle.sink.specs.Items.{cost_of, with_items};

use codec::decode;
use refusal::Refusal;
use sink::item::put_readable;
use sink::price::Price;
use sink::readable::Readable;
use sink::sink::{Priced, Sink};

// Puts the reading of each word, where there is room for all.
fn put_words<S: Sink>(sink: &mut S, words: &[u32]) -> Result<(), Refusal>
    requires { cost_of ⟦<S as Priced>⟧.prices (body_of words.now) ≤ (S.held sink.old).room }
    ensures { MatchResult result (λ _. S.held sink.new ≡ with_items ⟦<S as Priced>⟧.prices (S.held sink.old) (body_of words.now)) (λ _. ⊥) }
{
    for w in words {
        sink.put_inst(decode(*w))?;
    }
    Ok(())
}

// Puts a prologue, body words and an epilogue, where there is room for all.
pub(crate) fn put_function<S: Sink>(
    sink: &mut S,
    prologue: Readable<'_>,
    body: &[u32],
    epilogue: Readable<'_>,
) -> Result<(), Refusal>
    requires { cost_of ⟦<S as Priced>⟧.prices (prologue.items.now ++ (body_of body.now ++ epilogue.items.now)) ≤ (S.held sink.old).room }
    ensures { MatchResult result (λ _. S.held sink.new ≡ with_items ⟦<S as Priced>⟧.prices (S.held sink.old) (prologue.entry.items.now ++ (body_of body.now ++ epilogue.entry.items.now))) (λ _. ⊥) }
{
    put_readable(sink, prologue)?;
    put_words(sink, body)?;
    put_readable(sink, epilogue)?;
    Ok(())
}
