// Registers, immediates and the named instructions of AArch64. `codec` turns them into words and back.
#![tactic(auto)]

pub mod imm;
pub mod inst;
