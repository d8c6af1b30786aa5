//! The access list of a Thing with addresses alone, at a moment: the networks of the near selectors
//! of its entries, and the text of each entry in the exchange form of access lists (RFC 8519, 4.2),
//! with one network in place of what its selectors ask of the peer's address.
#![tactic(auto)]

mod entry;
mod flags;
mod header;
mod item;
pub mod laws;
mod layers;
pub mod list;
mod members;
pub mod near_laws;
mod networks;
pub mod ruling;
pub mod text;

pub use entry::append_entry;
pub use item::{Resolved, RuleNumber};
pub use list::{export_list, list_of};
pub use networks::near_networks;
pub use ruling::resolved_ruling;
pub use text::{append_resolved, resolved_text};
