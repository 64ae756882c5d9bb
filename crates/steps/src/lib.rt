// The pieces that need no layout: constants, SP moved by an amount, probes of the stack.
#![tactic(auto)]

pub mod adjust;
pub mod probes;
