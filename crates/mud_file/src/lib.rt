//! The reading of usage files (RFC 8520; RFC 8519): what one means, or the first rule that it
//! breaks and where. And the seconds that a date and time means, in the texts that YANG gives them
//! (RFC 6991, section 3; RFC 3339, section 5.6).
#![tactic(auto)]

mod date_parts;
pub mod date_time;
mod entries;
mod head;
pub mod laws;
mod lists;
pub mod read;
pub mod usage_file;
mod words;

pub use date_time::seconds_of;
pub use read::read_usage;
pub use usage_file::{Head, UsageFile};
pub use usage_walk::{Broken, FileFault, Rule};
