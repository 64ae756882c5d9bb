// What a sink is: where instructions and unwind notes go, at a price.
#![tactic(auto)]

pub mod item;
pub mod price;
pub mod readable;
pub mod sink;
