//! The JSON bodies of answers that are made whole before their first octet goes out: listings, and
//! why something is refused. They take memory.
#![tactic(auto)]

mod addresses;
pub mod binds;
pub mod files;
pub mod lists;
pub mod refusals;
pub mod things;
pub mod why;

pub use binds::{classes_body, due_body, locals_body, names_body};
pub use files::files_body;
pub use refusals::{body_fault_body, refusal_body, refusal_status};
pub use things::things_body;
pub use why::{RuledEndpoint, why_body};
