//! What the headers of an Ethernet frame say: the hardware addresses, and the fields of the IP
//! packet in it, or that the frame keeps the link up, or which part of it can't be read.
#![tactic(auto)]

mod ipv4;
mod ipv6;
mod reading;
mod traffic;
mod upper;
mod views;

pub use reading::view;
pub use views::{Frame, FrameView, PacketView, Part};
