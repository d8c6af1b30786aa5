//! How `tally` counts the packets of a capture: what was let through and what was denied, hour by
//! hour and by each Thing.

mod counting;
pub mod laws;
mod seeing;
mod store;
mod texts;

pub use store::tally_store;
