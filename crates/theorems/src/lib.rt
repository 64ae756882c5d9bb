// What frames owe their callers: theorems, each on the contract of a function. The functions differ in their contracts alone.
#![tactic(auto)]

ghost use Rattle.returns.specs.Example.{RulesKept, ThreeDeep};
ghost use Rattle.returns.specs.Notes.{FrameNoted, NotesHold, OneNoteEach};
ghost use Rattle.returns.specs.Returns.{Lands, Returns, SavedKept};
ghost use Rattle.returns.specs.Trees.{TreesReturn};
ghost use Rattle.returns.specs.Witnesses.{Clobberable, Enterable};

// Every accepted sheet's function returns to its caller, who loses nothing, whatever lawful body runs; and what it saves it keeps.
pub fn frame_returns() -> u8
    ensures back { Returns }
    ensures kept { SavedKept }
{
    0
}

// With landing pads asked for, a function begins with one.
pub fn frame_lands() -> u8
    ensures { Lands }
{
    0
}

// The root and every call of every finite tree of calls return so, if the bodies keep the rules.
pub fn trees_return() -> u8
    ensures { TreesReturn }
{
    0
}

// In every state of a lawful body the unwind notes are right, and each saved register has one, as the frame has.
pub fn notes_hold() -> u8
    ensures hold { NotesHold }
    ensures once { OneNoteEach }
    ensures frame { FrameNoted }
{
    0
}

// The premises can be met: entry states exist, and bodies that change every clobber; a tree of three functions keeps the rules and runs to its return.
pub fn premises_met() -> u8
    ensures entry { Enterable }
    ensures body { Clobberable }
    ensures tree { ThreeDeep }
    ensures rules { RulesKept }
{
    0
}
