//! The real outside: a door over standard input and output or over the connections to a port, the
//! machine's clock, and a spool over a folder.
#![tactic(auto)]

pub mod client;
pub mod clock;
pub mod door;
pub mod failure;
pub mod port;
pub mod spool;

pub use client::{Client, LONGEST_WAIT};
pub use clock::RealClock;
pub use door::RealDoor;
pub use failure::{Call, Failure};
pub use port::Port;
pub use spool::RealSpool;
