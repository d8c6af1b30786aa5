//! Counts of the rulings on packets, and of what was denied since no entry matches: rows count how
//! often sort keys appear, of all sort keys, or of those that appear first.
#![tactic(auto)]

mod counted;
pub mod counted_laws;
mod counting;
pub mod laws;
mod order;
pub mod rows;
pub mod seen;
pub mod tally;
pub mod totals;

pub use counted::{Tallied, count_first, count_one};
pub use rows::{CountRow, DeniedRow, OtherRow};
pub use seen::{Seen, hour_at};
pub use tally::{Tally, TallyPlan};
pub use totals::Totals;
