//! The edits of rows and of bindings that a change leads to: one of bindings, which go and come, or
//! one of the policy in a slot of the table. And the policies as they are held there, with the
//! entries that have each key at hand, so that nothing else is read where an address is bound to
//! the key or isn't any more.
#![tactic(auto)]

pub mod bindings;
pub mod change;
pub mod entry_keys;
mod fresh;
pub mod group;
pub mod index;
mod keys;
pub mod laws;
pub mod policies;
pub mod policy;

pub use bindings::edits_of;
pub use change::{Change, Holding};
pub use entry_keys::selector_key;
pub use group::EntrySpot;
pub use index::KeyIndex;
pub use policies::{CompiledPolicy, Held, HeldDefaults};
pub use policy::slot_rows;
