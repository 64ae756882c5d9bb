// The save area, 16 bytes a slot.
pub mod at;
pub mod moves;
pub mod saved;

use a64::inst::{Class, PairClass};
use saved::Saved;

// Two integer registers or the low halves of two vectors, or one register of a class.
#[derive(Clone, Copy)]
pub enum SaveSlot {
    Pair(PairClass, Saved, Saved),
    One(Class, Saved),
}
