// Listing functions, and finding them by slot and by number.
ghost use Rattle.std.specs.Prelude.{◌≡◌, ◌+◌, ◌-◌, ◌<◌, ◌≤◌, [], ◌∷◌, ◌++◌, length, take, IfOk, if◌then◌else◌, vec_len, vec_capacity, nat_lt};
ghost use Rattle.fixed_list.specs.Items.{push_answer, pushed};
ghost use Rattle.order.specs.Placed.{InOrder, below};
ghost use Rattle.shelf.specs.Index.{cut_slot, insert_key_of, key_order, look_in};
ghost use Rattle.shelf.specs.Limits.{function_count};
ghost use Rattle.shelf.specs.Listed.{listed};
ghost use Rattle.shelf.specs.Slots.{item_at, numbers_of, slot_for};

use super::{FUNCTION_COUNT, Shelf};
use crate::entry::Entry;
use crate::key::Key;
use order::insert;
use std::alloc::{AllocError, Global};

// The slot of a number, by keys that are in order.
fn slot_in(keys: &[Key], number: u32) -> Option<usize>
    ensures { InOrder (below key_order) keys.now → result ≡ look_in number keys.now }
{
    let first = keys.get(keys.partition_point(|k| k.number < number))?;
    if first.number == number {
        Some(first.slot)
    } else {
        None
    }
}

// Puts a key in its place, where there is memory for it. By the one insertion that keeps every list in order.
fn insert_key(keys: &mut Vec<Key>, x: Key)
    requires { vec_len keys.old < vec_capacity keys.old }
    ensures items { keys.new.items ≡ insert_key_of keys.old.items x }
    ensures capacity { vec_capacity keys.new ≡ vec_capacity keys.old }
{
    let n = keys.len();
    keys.push_reserved(x);
    let _ = insert(keys.as_mut_slice(), n, x);
}

// Takes out the key of a slot.
fn cut_key(keys: &mut Vec<Key>, slot: usize)
    ensures items { keys.new.items ≡ cut_slot slot keys.old.items }
    ensures capacity { vec_capacity keys.new ≡ vec_capacity keys.old }
{
    if let Some(i) = keys.iter().position(|k| k.slot == slot) {
        let _ = keys.remove(i);
    }
}

impl Shelf {
    // An empty shelf with all the memory that it will need, or want of memory.
    pub fn new(heap: Global) -> Result<Shelf, AllocError>
        ensures { IfOk result (λ s. listed s ≡ []) }
    {
        let entries = Vec::with_capacity(heap, FUNCTION_COUNT)?;
        let keys = Vec::with_capacity(heap, FUNCTION_COUNT)?;
        Ok(Shelf { entries, keys })
    }

    pub fn len(&self) -> usize
        ensures { result ≡ length (listed self.now) }
    {
        self.entries.len()
    }

    // The entry of a slot.
    pub fn entry_at(&self, slot: usize) -> Option<Entry>
        ensures { result ≡ item_at (listed self.now) slot }
    {
        self.entries.get(slot).copied()
    }

    // The entry that was listed last.
    pub fn last(&self) -> Option<Entry>
        ensures { result ≡ item_at (listed self.now) (length (listed self.now) - 1) }
    {
        self.entries.last().copied()
    }

    // The first slot with this function number.
    pub fn slot_of(&self, number: u32) -> Option<usize>
        ensures { result ≡ slot_for number (numbers_of (listed self.now)) }
    {
        slot_in(self.keys.as_slice(), number)
    }

    // Lists a function behind the others. Where FUNCTION_COUNT are listed it comes back, and nothing changes.
    pub fn push(&mut self, entry: Entry) -> Result<(), Entry>
        ensures answer { result ≡ push_answer function_count (listed self.old) entry }
        ensures list { listed self.new ≡ pushed function_count (listed self.old) entry }
    {
        let n = self.entries.len();
        if n >= FUNCTION_COUNT {
            return Err(entry);
        }
        self.entries.push_reserved(entry);
        insert_key(
            &mut self.keys,
            Key {
                number: entry.sheet.number,
                slot: n,
            },
        );
        Ok(())
    }

    // Takes the last function off the list, if there is one.
    pub fn cut_last(&mut self)
        ensures { listed self.new ≡ take (length (listed self.old) - 1) (listed self.old) }
    {
        let n = self.entries.len();
        if n == 0 {
            return;
        }
        self.entries.truncate(n - 1);
        cut_key(&mut self.keys, n - 1);
    }
}
