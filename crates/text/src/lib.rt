// Lines, words and parts of a text of any bytes. Every call takes any text.
#![tactic(auto)]

mod find;
pub mod lines;
pub mod parts;
pub mod words;
