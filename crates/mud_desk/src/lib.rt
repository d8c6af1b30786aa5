//! The desk: the manager's lists, kept by a keeper. It is opened over the items of its keeper, which
//! are read whole first. A command is kept before it is made. The verdict on each packet is that by
//! what is compiled of the lists as they are; what decides it is lent, and the packets that count for
//! the connections are noted.
#![tactic(auto)]

pub mod desk;
mod desk_rules;
mod findings;
pub mod items;
mod keeping;
mod noting;
pub mod state;

pub use desk::Desk;
pub use desk_model::{Command, Outcome, Refusal, Reply};
pub use findings::{Findings, RuledThing};
pub use items::{Loaded, OpenFault};
pub use packet_judge::Verdict;
pub use state::{JudgedFrame, State};
