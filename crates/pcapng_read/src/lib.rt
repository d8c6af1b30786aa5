//! Captures in the format pcapng (draft-ietf-opsawg-pcapng), read packet by packet through one
//! buffer.
#![tactic(auto)]

mod body;
pub mod capture;
pub mod fault;
mod head;
mod interfaces;
mod options;
mod read;
pub mod reader;
mod standing;

pub use capture::NgCapture;
pub use fault::NgFault;
pub use reader::NgReader;
