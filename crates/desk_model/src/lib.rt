//! The written desk: what the manager holds, what every command, frame and raise of the moment makes
//! of it and answers, and the items in which it is kept. The types of commands and replies are here,
//! with the texts of replies and verdicts; the meaning is in the definitions of `specs`, and what holds
//! of them in the laws.
#![tactic(auto)]

pub mod command;
pub mod item_laws;
pub mod laws;
pub mod reply;
pub mod session_laws;
pub mod texts;
pub mod types;

pub use command::Command;
pub use reply::{Outcome, Refusal, Reply};
