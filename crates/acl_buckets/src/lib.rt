//! Rows and bindings in buckets: the rows of each owner and side stand by themselves, and there
//! those of each address; so do the bindings of each key. So a change moves only rows of the
//! owners, sides and addresses, and bindings of the keys, that it is about.
#![tactic(auto)]

mod binding_parts;
pub mod bindings;
mod row_parts;
pub mod rows;

pub use bindings::BindingBuckets;
pub use rows::RowBuckets;
