// What a sheet says of a function.

#[derive(Clone, Copy, Debug, PartialEq, Eq)]
pub enum CallConv {
    Fast,
    Tail,
    SystemV,
    WindowsFastcall,
    AppleAarch64,
    Probestack,
    Winch,
    PreserveAll,
}

// Which calls the function makes.
#[derive(Clone, Copy, Debug, PartialEq, Eq)]
pub enum FunctionCalls {
    None,
    TailOnly,
    Regular,
}

#[derive(Clone, Copy)]
pub struct Flags {
    pub preserve_frame_pointers: bool,
    pub enable_pinned_reg: bool,
    pub unwind_info: bool,
    pub enable_compact_unwind_abi: bool,
    pub use_bti: bool,
    pub sign_return_address: bool,
    pub sign_return_address_all: bool,
    pub sign_return_address_with_bkey: bool,
    pub has_pauth: bool,
    pub inline_probes: bool,
    pub dynamic_vector: bool,
}

// In bytes.
#[derive(Clone, Copy)]
pub struct Sizes {
    pub incoming: u32,
    pub tail: u32,
    pub stackslots: u32,
    pub fixed: u32,
    pub outgoing: u32,
    pub guard: u32,
}

// A sheet as it arrives: convention, call kind and flags are numbers still.
// A clobber code is N for xN and 64 + N for vN.
#[derive(Clone, Copy)]
pub struct Sheet<'a> {
    pub number: u32,
    pub call_conv: u32,
    pub function_calls: u32,
    pub flags: u32,
    pub sizes: Sizes,
    pub clobbers: &'a [u8],
}
