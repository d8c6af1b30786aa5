//! How a run of the program ends: its status, why it ends early, its output, and what it makes of
//! its door. And what commands that write of a store have in common: the moment at which a store is
//! listed, and texts of many parts, each of which is written as soon as it is made.
#![tactic(auto)]

mod moment;
pub mod status;
pub mod stop;
mod writing;

pub use moment::listing_moment;
pub use status::Status;
pub use stop::Stop;
pub use writing::write_text;
