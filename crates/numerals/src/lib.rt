// Numbers of a text of any bytes. Every call takes any text.
#![tactic(auto)]

pub mod number;
