// The pieces that open and close a function, as lists of items.
#![tactic(auto)]

mod closing;
mod forms;
mod opening;
mod parts;
pub mod piece;
mod slots;
