//! Rows in the order of their sort keys, each sort key once, in one store for all that is kept
//! sorted; edits of rows, planned with the index of their sort key and made without a search; and
//! the counter of steps by which a search is bounded.
#![tactic(auto)]

pub mod addresses;
pub mod edit;
pub mod edit_laws;
mod edit_runs;
pub mod sortable;
pub mod steps;

pub use edit::{Edit, make_edit, make_edits_from, plan_edit};
pub use sortable::{Change, HoldsRow, KeyOf, PrefixOf, Sortable, SortedRows};
pub use steps::Steps;
