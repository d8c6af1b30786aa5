//! The command `export`: it opens a store, and writes what a Thing may do now, as access lists with
//! addresses alone.

mod desk;
mod lists;
mod sources;
mod store;
mod writing;

pub use store::export_store;
