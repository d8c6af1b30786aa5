//! How a command runs that reads a capture of the door, in whichever of its formats, and writes
//! lines to it: the first octets say which format it is, and each line is written before more of
//! the capture is read.
#![tactic(auto)]

pub mod fault;
pub mod first;
pub mod laws;
pub mod lines;
pub mod reader;
pub mod run;

pub use fault::CaptureFault;
pub use first::First;
pub use lines::{PacketLines, write_capture};
pub use reader::CaptureReader;
pub use run::{Way, end_capture, go_on};
