// The struct alone: its ghost fields cite specs that do not name it.
ghost use Rattle.std.specs.Prelude.{◌≡◌, ◌≤◌, vec_len, vec_capacity};
ghost use Rattle.shelf.specs.Index.{index_of};
ghost use Rattle.shelf.specs.Limits.{function_count};
ghost use Rattle.shelf.specs.Slots.{numbers_of};

use crate::entry::Entry;
use crate::key::Key;

pub mod methods;

// No more functions are listed.
pub const FUNCTION_COUNT: usize = 64;

// The functions in the order in which they were added, and their numbers in ascending order.
#[derive(Drop)]
pub struct Shelf {
    entries: Vec<Entry>,
    keys: Vec<Key>,
    ghost entries_fit: { function_count ≤ vec_capacity entries },
    ghost keys_fit: { function_count ≤ vec_capacity keys },
    ghost few: { vec_len entries ≤ function_count },
    ghost indexed: { keys.items ≡ index_of (numbers_of entries.items) },
}
