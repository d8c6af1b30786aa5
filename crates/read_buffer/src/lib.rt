//! The buffers between a door and those who read its octets: octets that are kept are moved to the
//! front, and more are read behind them. The readers of captures have one of them between a source
//! of octets and the packets, and know what was taken of the source.
#![tactic(auto)]

pub mod buffer;
pub mod filling;

pub use buffer::{Buffer, fetch, wanted_behind};
pub use filling::{refill, zeros};
