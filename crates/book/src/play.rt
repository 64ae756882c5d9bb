// A list of calls on a new book, and every answer.
ghost use Rattle.plainbook.specs.Answers.{after, answer, said_by};
ghost use Rattle.plainbook.specs.Claims.{Right};
ghost use Rattle.plainbook.specs.Stands.{Moves};
ghost use Rattle.shelf.specs.Listed.{listed};
ghost use Rattle.std.specs.Prelude.{◌≡◌, MatchResult};

use crate::book::Book;
use plainbook::calls::{Answer, Call};
use sink::sink::{Priced, Sink};
use std::alloc::{AllocFailed, Global};

impl<S: Sink> Book<S> {
    // One call, and its answer.
    fn step(&mut self, call: &Call) -> Answer
        ensures { let p = ⟦<S as Priced>⟧.prices in Moves p (S.held self.old.sink) (listed self.old.shelf) (S.held self.new.sink) (listed self.new.shelf) (λ k fs. answer p k fs call.now) (λ k fs. after p k fs call.now) (said_by result) }
    {
        match call {
            Call::Add(sheet, body) => Answer::Added(self.add(*sheet, body)),
            Call::Withdraw => Answer::Withdrew(self.withdraw()),
            Call::LookUp(number) => Answer::Found(self.look_up(*number)),
            Call::InstAt(i) => Answer::Inst(self.inst_at(*i)),
            Call::NoteAt(i) => Answer::Note(self.note_at(*i)),
            Call::Counts => Answer::Counted(self.counts()),
        }
    }
}

// The book after the calls, and the answer to each.
#[derive(Drop)]
pub struct Played<S: Sink> {
    pub book: Book<S>,
    pub answers: Vec<Answer>,
}

// Plays a list of calls on a new book over a sink. Want of memory hands the sink back as it was.
pub fn play<S: Sink + Drop>(
    heap: Global,
    sink: S,
    calls: &[Call],
) -> Result<Played<S>, AllocFailed<S>>
    ensures { MatchResult result (λ b. Right ⟦<S as Priced>⟧.prices (S.held sink) (S.held b.book.sink) (listed b.book.shelf) calls.now b.answers.items) (λ e. e.value ≡ sink) }
{
    let Ok(mut answers) = Vec::with_capacity(heap, calls.len()) else {
        return Err(AllocFailed { value: sink });
    };
    let mut book = Book::new(heap, sink)?;
    for call in calls {
        let answer = book.step(call);
        answers.push_reserved(answer);
    }
    Ok(Played { book, answers })
}
