//! How a run opens a desk over its keeper: what it writes where the store can't be opened, and how
//! `judge` writes the verdict on each packet of a capture.
#![tactic(auto)]

mod judging;
pub mod laws;
mod refusing;
mod store;

pub use judging::{append_judged, judge_packet, moment_of};
pub use refusing::refuse_store;
pub use store::judge_store;
