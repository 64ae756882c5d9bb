// A sheet whose numbers are read: not yet known to be sound.
use crate::types::{CallConv, Flags, FunctionCalls, Sizes};

// Apart from the checked sheet: its codes are lent, and no row is tried yet.
#[derive(Clone, Copy)]
pub(crate) struct ReadSheet<'a> {
    pub number: u32,
    pub call_conv: CallConv,
    pub function_calls: FunctionCalls,
    pub flags: Flags,
    pub sizes: Sizes,
    pub clobbers: &'a [u8],
}
