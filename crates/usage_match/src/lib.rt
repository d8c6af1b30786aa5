//! What the `matches` of an entry of a usage file test (RFC 8519, 4.2; RFC 8520, 4 and 8), or the
//! first rule that they break and where.
#![tactic(auto)]

mod containers;
pub mod entry_tests;
mod flags;
pub mod matches;
mod ports;
mod texts;
mod ways;

pub use entry_tests::{IpTests, ListType, MudTests, Operator, Tests};
pub use matches::tests_at;
