//! The usage files that the manager holds, and the changes of them: each is planned first, which
//! takes all memory, and committed later, which takes none and can't fail.
#![tactic(auto)]

pub mod cache;
pub mod change;
pub mod due;
mod edits;
mod imports;
mod items;
mod read;
mod take;
mod verdicts;

pub use cache::FileCache;
pub use change::CacheChange;
pub use due::is_due;
pub use usage_tables::{
    Approval, CacheFault, CachedFile, FileEdit, Held, OperatorVerdict, PolicyChange,
};
