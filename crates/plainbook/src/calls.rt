// What a book is asked, and what it answers.
use a64::inst::Inst;
use notes::Note;
use refusal::Refusal;
use sheet::types::Sheet;
use sink::sink::Counts;

#[derive(Clone, Copy)]
pub enum Call<'a> {
    // A sheet and body words.
    Add(Sheet<'a>, &'a [u32]),
    Withdraw,
    // A function number.
    LookUp(u32),
    // An index.
    InstAt(usize),
    NoteAt(usize),
    Counts,
}

// Each call's own answer.
#[derive(Clone, Copy)]
pub enum Answer {
    Added(Result<usize, Refusal>),
    Withdrew(Result<u32, Refusal>),
    Found(Option<usize>),
    Inst(Result<Inst, Refusal>),
    Note(Result<Note, Refusal>),
    Counted(Counts),
}
