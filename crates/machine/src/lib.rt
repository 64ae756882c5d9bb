// The machine that frames run on: its definitions are in specs, and here are the cores.
#![tactic(auto)]

pub mod cores;
