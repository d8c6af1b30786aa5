//! The table of usage files: which files are held of a URL, what the commands on files make of them,
//! the policies that they mean, when they are to be fetched again, and the items in which they are
//! kept. The types are here, and their meaning is in the definitions of `specs`.
#![tactic(auto)]

pub mod approval;
pub mod cache_fault;
pub mod cached_file;
pub mod entries;
pub mod file_edit;
pub mod held;
pub mod item_laws;
pub mod laws;
pub mod limits;
pub mod policy_laws;

pub use approval::{Approval, OperatorVerdict};
pub use cache_fault::CacheFault;
pub use cached_file::CachedFile;
pub use file_edit::{FileEdit, PolicyChange};
pub use held::Held;
