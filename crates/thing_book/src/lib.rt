//! The book of Things, with their leases and holds: its list, what each command makes of it, and
//! the items in which it is kept. A command is planned first, which takes all memory that it needs
//! and leaves the list as it is; then the change is committed, which can't fail.
#![tactic(auto)]

pub mod book;
pub mod change;
mod copies;
mod holds;
mod items;
mod key;
mod leases;
mod numbers;
mod plan;
mod ranges;
mod reading;
mod urls;

pub use book::ThingBook;
pub use change::ThingChange;
pub use item_codec::Word;
pub use table_model::{Thing, ThingFault};
