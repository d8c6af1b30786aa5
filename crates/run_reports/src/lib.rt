//! The commands that write out what a store holds: `report`, one of its tables, and `export`, what
//! a Thing may do now.
#![tactic(auto)]

mod binds;
mod export;
mod files;
mod row;
mod rows;
mod store;
mod table;
mod things;

pub use export::export_store;
pub use store::report_store;
