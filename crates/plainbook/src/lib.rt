// The plain book: what a book is asked, what it must answer, and what is claimed of the functions that it holds.
#![tactic(auto)]

pub mod calls;
