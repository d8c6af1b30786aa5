//! What the answers of a DNS resolver say (RFC 1035): the name that was asked for, and its addresses
//! (RFC 3596 for IPv6), each with the seconds for which it may be taken for that name.
#![tactic(auto)]

mod answer;
pub mod answers;
pub mod fault;
mod jumps;
mod label;
pub mod laws;
mod name;
mod rows;

pub use answers::{Answers, read_answers};
pub use fault::DnsFault;
