// The layout of a checked sheet's frame.
#![tactic(auto)]

mod compact;
pub mod compute;
pub mod frame_layout;
mod gather;
mod listed;

pub use compute::compute_frame_layout;
pub use frame_layout::FrameLayout;
