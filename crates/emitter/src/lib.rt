// Prologues and epilogues, piece by piece or whole, on any sink.
#![tactic(auto)]

ghost use Rattle.emitter.specs.Parts.{PutPart};
ghost use Rattle.item_list.specs.Lists.{listed};
ghost use Rattle.std.specs.Prelude.{[], ◌≡◌};

mod part;
mod pieces;
mod small;

use crate::part::{Part, list_part};
use item_list::ItemList;
use refusal::Refusal;
use sink::item::{put_items, put_readable};
use sink::readable::Readable;
use sink::sink::{Priced, Sink};

// The cells in which a part is listed before it is put. One emitter serves for any number of parts.
#[derive(Drop)]
pub struct Emitter {
    list: ItemList,
}

impl Emitter {
    pub fn new() -> Emitter
        ensures { listed result.list ≡ [] }
    {
        Emitter {
            list: ItemList::new(),
        }
    }

    // A part, whole or not at all. Inlined, so that each method keeps the arms of its own part alone.
    #[inline(always)]
    fn put<S: Sink>(&mut self, part: Part<'_>, sink: &mut S) -> Result<(), Refusal>
        ensures { PutPart ⟦<S as Priced>⟧.prices (S.held sink.old) part.entry (S.held sink.new) result }
    {
        self.list.clear();
        list_part(part, &mut self.list);
        let items = self.list.as_slice();
        match part {
            // The register's number may be too large.
            Part::Constant(_, _) => put_items(sink, items),
            _ => put_readable(sink, Readable { items }),
        }
    }
}
