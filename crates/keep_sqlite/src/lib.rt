//! Keepers over an SQL database: items in one table, and a batch as one transaction.
#![tactic(auto)]

mod batch;
pub mod file_keeper;
mod first_opening;
pub mod laws;
mod listing;
pub mod opened_file;
mod opening;
pub mod refusal;
mod schema;
pub mod sqlite_keeper;

pub use file_keeper::{FileKeeper, leave_file, open_file};
pub use opened_file::OpenedFile;
pub use refusal::Refusal;
pub use sqlite_keeper::SqliteKeeper;
