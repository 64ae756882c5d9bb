// Books of compiled functions, on any sink.
#![tactic(auto)]

pub mod book;
mod items;
mod limits;
pub mod play;
mod puts;
