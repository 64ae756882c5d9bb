// Numbers read as conventions, call kinds and flags.
ghost use Rattle.sheet.specs.Plain.{conv_of, calls_of, flags_of};
ghost use Rattle.sheet.specs.Refused.{Reads};

use crate::refused::refusal;
use crate::types::{CallConv, Flags, FunctionCalls};
use codes::bits::has_bit;
use refusal::{Cause, Refusal};

impl TryFrom<u32> for CallConv {
    type Error = Refusal;

    ghost try_from_gives = { Reads 8 conv_of };

    fn try_from(n: u32) -> Result<CallConv, Refusal> {
        match n {
            0 => Ok(CallConv::Fast),
            1 => Ok(CallConv::Tail),
            2 => Ok(CallConv::SystemV),
            3 => Ok(CallConv::WindowsFastcall),
            4 => Ok(CallConv::AppleAarch64),
            5 => Ok(CallConv::Probestack),
            6 => Ok(CallConv::Winch),
            7 => Ok(CallConv::PreserveAll),
            _ => Err(refusal(Cause::OutOfRange)),
        }
    }
}

impl TryFrom<u32> for FunctionCalls {
    type Error = Refusal;

    ghost try_from_gives = { Reads 3 calls_of };

    fn try_from(n: u32) -> Result<FunctionCalls, Refusal> {
        match n {
            0 => Ok(FunctionCalls::None),
            1 => Ok(FunctionCalls::TailOnly),
            2 => Ok(FunctionCalls::Regular),
            _ => Err(refusal(Cause::OutOfRange)),
        }
    }
}

// Bit k of the number is flag k.
impl TryFrom<u32> for Flags {
    type Error = Refusal;

    ghost try_from_gives = { Reads 2048 flags_of };

    fn try_from(n: u32) -> Result<Flags, Refusal> {
        if n >= 2048 {
            return Err(refusal(Cause::OutOfRange));
        }
        Ok(Flags {
            preserve_frame_pointers: has_bit(n, 0),
            enable_pinned_reg: has_bit(n, 1),
            unwind_info: has_bit(n, 2),
            enable_compact_unwind_abi: has_bit(n, 3),
            use_bti: has_bit(n, 4),
            sign_return_address: has_bit(n, 5),
            sign_return_address_all: has_bit(n, 6),
            sign_return_address_with_bkey: has_bit(n, 7),
            has_pauth: has_bit(n, 8),
            inline_probes: has_bit(n, 9),
            dynamic_vector: has_bit(n, 10),
        })
    }
}
