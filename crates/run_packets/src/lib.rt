//! The commands over a store that go through the packets of a capture and learn or count:
//! `snoop`, which takes names from the DNS answers that it meets, and `tally`, which counts by
//! hours which entry decided.
#![tactic(auto)]

pub mod snoop;
pub mod tally;

pub use snoop::snoop_store;
pub use tally::tally_store;
