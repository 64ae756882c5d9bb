// A list of register codes that owns its cells.
use fixed_list::FixedList;

// How many registers have a code: 32 integer registers and 32 vectors.
pub const CODE_COUNT: usize = 64;

pub type CodeList = FixedList<u8, CODE_COUNT>;
