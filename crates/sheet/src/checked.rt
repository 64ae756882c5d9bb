// The struct alone: its ghost field cites specs that do not name it.
ghost use Rattle.std.specs.Prelude.{◌≡◌, false, is_some};
ghost use Rattle.refusal.specs.Told.{first};
ghost use Rattle.codes.specs.Items.{items};
ghost use Rattle.sheet.specs.Refused.{plain_rows};

use crate::types::{CallConv, Flags, FunctionCalls, Sizes};
use codes::list::CodeList;

// A sheet to which no refusal applies.
#[derive(Clone, Copy)]
pub struct CheckedSheet {
    pub number: u32,
    pub call_conv: CallConv,
    pub function_calls: FunctionCalls,
    pub flags: Flags,
    pub sizes: Sizes,
    pub clobbers: CodeList,
    ghost accepted: { is_some (first (plain_rows (record { number = number; conv = call_conv; calls = function_calls; flags = flags; sizes = sizes; clobbers = items clobbers }))) ≡ false },
}
