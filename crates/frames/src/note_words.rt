// Unwind notes in words.
use crate::register::Register;
use notes::UnwindInst;
use std::fmt;

#[derive(Clone, Copy)]
pub struct InWords(pub UnwindInst);

impl fmt::Display for InWords {
    fn fmt<W: fmt::Write>(&self, f: &mut fmt::Formatter<W>) -> fmt::Result {
        match self.0 {
            UnwindInst::PushFrameRegs {
                offset_upward_to_caller_sp,
            } => {
                let up = offset_upward_to_caller_sp;
                write!(f, "FP and LR are pushed, {up} bytes")
            }
            UnwindInst::DefineNewFrame {
                offset_upward_to_caller_sp,
                offset_downward_to_clobbers,
            } => {
                let up = offset_upward_to_caller_sp;
                let down = offset_downward_to_clobbers;
                write!(
                    f,
                    "the caller's SP is FP + {up}, saves begin at FP - {down}"
                )
            }
            UnwindInst::StackAlloc { size } => write!(f, "SP went down by {size}"),
            UnwindInst::SaveReg {
                clobber_offset,
                reg,
            } => {
                let name = Register::v(reg);
                let up = clobber_offset;
                write!(f, "{name} is saved, {up} up from where saves begin")
            }
            UnwindInst::Aarch64SetPointerAuth { return_addresses } => {
                f.write_str(if return_addresses {
                    "return addresses are sealed"
                } else {
                    "return addresses are not sealed"
                })
            }
        }
    }
}
