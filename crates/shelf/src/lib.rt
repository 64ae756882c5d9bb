// What a book lists: its functions by slot, and their numbers in order.
#![tactic(auto)]

pub mod entry;
pub mod key;
pub mod shelf;
