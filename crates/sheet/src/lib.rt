// From a sheet as it arrives to one to which no refusal applies.
#![tactic(auto)]

pub mod check;
pub mod checked;
mod clobbers;
pub mod key;
mod read;
mod reads;
mod refused;
pub mod types;
