// A list of items that owns its cells.
#![tactic(auto)]

ghost use Rattle.item_list.specs.Lists.{Puts, joined, listed};
ghost use Rattle.std.specs.Prelude.{◌≡◌, [], ◌∷◌};
ghost use Rattle.sink.specs.declared.item.Item.TheVariants.{Inst as AnInst, Note as ANote};

use a64::inst::Inst;
use fixed_list::FixedList;
use notes::UnwindInst;
use sink::item::Item;

// More than the longest piece takes.
pub const CELL_COUNT: usize = 160;

#[derive(Clone, Copy)]
pub struct ItemList {
    items: FixedList<Item, CELL_COUNT>,
}

impl ItemList {
    pub fn new() -> ItemList
        ensures { listed result ≡ [] }
    {
        ItemList {
            items: FixedList::with_blank(Item::Inst(Inst::Ret)),
        }
    }

    pub fn clear(&mut self)
        ensures { listed self.new ≡ [] }
    {
        self.items.clear();
    }

    pub fn as_slice(&self) -> &[Item]
        ensures { result.now ≡ listed self.now }
    {
        self.items.as_slice()
    }

    // The list as it was, where all cells are taken.
    fn push(&mut self, x: Item)
        ensures { Puts self.old self.new (x ∷ []) }
    {
        let _ = self.items.push(x);
    }

    pub fn inst(&mut self, x: Inst)
        ensures { Puts self.old self.new (AnInst x ∷ []) }
    {
        self.push(Item::Inst(x));
    }

    pub fn note(&mut self, x: UnwindInst)
        ensures { Puts self.old self.new (ANote x ∷ []) }
    {
        self.push(Item::Note(x));
    }
}
