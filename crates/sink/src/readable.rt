// The struct alone: its ghost field cites specs that do not name it.
ghost use Rattle.sink.specs.Items.{AllRead};

use crate::item::Item;

// Items each of whose instructions is some word's reading.
#[derive(Clone, Copy)]
pub struct Readable<'a> {
    pub items: &'a [Item],
    ghost read: { ∥ AllRead items.now ∥₁ },
}
