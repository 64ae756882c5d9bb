// The pieces of a function's frame as lists of items.
ghost use Rattle.item_list.specs.Lists.{listed};
ghost use Rattle.frame.specs.Named.{piece_of};
ghost use Rattle.sheet.specs.Checks.{plain};
ghost use Rattle.sink.specs.Items.{AllRead};
ghost use Rattle.std.specs.Prelude.{◌≡◌};

use frame::piece::{Piece, list_piece};
use item_list::ItemList;
use layout::FrameLayout;

#[tactic(auto, using(crate::proofs::Filled::filled, crate::proofs::Filled::filled_read))]
pub(crate) fn items_of(piece: Piece, layout: &FrameLayout) -> ItemList
    ensures items { listed result ≡ piece_of piece (plain layout.now.sheet) }
    ensures read { AllRead (piece_of piece (plain layout.now.sheet)) }
{
    let mut list = ItemList::new();
    list_piece(piece, layout, &mut list);
    list
}
