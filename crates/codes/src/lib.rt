// Register codes: single bits, lists and sets of them.
#![tactic(auto)]

pub mod bits;
pub mod list;
pub mod marks;
