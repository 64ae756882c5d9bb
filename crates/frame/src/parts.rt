// What the pieces ask of a layout.
// Functions: a trait on the layout, which is of a crate below, would write each signature twice.
#![tactic(auto, using(crate::proofs::Putting::puts))]

ghost use Rattle.std.specs.Prelude.{◌≡◌, ◌≤◌};
ghost use Rattle.item_list.specs.Lists.{Puts};
ghost use Rattle.frame.specs.Pieces.{callee_pop_size_of, incoming_args_diff_of, noting, probe_size_of, select_api_key_of, stack_size_of};
ghost use Rattle.sheet.specs.Checks.{plain};
ghost use Rattle.sheet.specs.Saved.{sets_up};

use a64::inst::ApiKey;
use item_list::ItemList;
use layout::FrameLayout;
use notes::UnwindInst;
use sheet::key::select_api_key;
use sheet::types::{CallConv, FunctionCalls};

// Whether FP and LR are pushed.
pub(crate) fn has_setup(layout: &FrameLayout) -> bool
    ensures { result ≡ sets_up (plain layout.now.sheet) }
{
    layout.setup_area_size > 0
}

// Puts a note where notes are on.
pub(crate) fn unwind(layout: &FrameLayout, inst: UnwindInst, list: &mut ItemList)
    ensures { Puts list.old list.new (noting (plain layout.now.sheet) inst) }
{
    if layout.sheet.flags.unwind_info {
        list.note(inst);
    }
}

pub(crate) fn api_key(layout: &FrameLayout) -> Option<ApiKey>
    ensures { result ≡ select_api_key_of (plain layout.now.sheet) }
{
    select_api_key(
        layout.sheet.flags,
        layout.sheet.call_conv,
        has_setup(layout),
    )
}

// The room that a tail call needs more than there is.
pub(crate) fn incoming_args_diff(layout: &FrameLayout) -> u32
    ensures { result ≡ incoming_args_diff_of (plain layout.now.sheet) }
{
    layout.sheet.sizes.tail - layout.sheet.sizes.incoming
}

// The fixed storage and the outgoing arguments.
pub(crate) fn stack_size(layout: &FrameLayout) -> u32
    ensures { result ≡ stack_size_of (plain layout.now.sheet) }
{
    layout.sheet.sizes.fixed + layout.sheet.sizes.outgoing
}

// What the callee gives back.
pub(crate) fn callee_pop_size(layout: &FrameLayout) -> u32
    ensures { result ≡ callee_pop_size_of (plain layout.now.sheet) }
{
    match layout.sheet.call_conv {
        CallConv::Tail => layout.sheet.sizes.tail,
        CallConv::Winch => layout.sheet.sizes.incoming,
        _ => 0,
    }
}

// What the probes go over: the setup area counts unless the function makes no call.
pub(crate) fn probe_size(layout: &FrameLayout) -> u32
    ensures { result ≡ probe_size_of (plain layout.now.sheet) }
{
    let size = incoming_args_diff(layout) + layout.clobber_size + stack_size(layout);
    if layout.sheet.function_calls == FunctionCalls::None {
        size
    } else {
        size + layout.setup_area_size
    }
}
