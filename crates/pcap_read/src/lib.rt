//! Captures in the classic format of libpcap, version 2.4 (draft-ietf-opsawg-pcap), read packet by
//! packet through one buffer.
#![tactic(auto)]

pub mod capture;
pub mod fault;
mod head;
mod header;
mod read;
pub mod reader;
mod stage;

pub use capture::Capture;
pub use fault::CapFault;
pub use reader::{Captured, Reader};
