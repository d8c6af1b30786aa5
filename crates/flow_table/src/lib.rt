//! The table of TCP connections: who began each of them, by the packets that were forwarded.
#![tactic(auto)]

pub mod kept;
pub mod key;
mod log;
pub mod pairs;
mod slots;
pub mod table;

pub use kept::Begun;
pub use key::{Key, ShortKey};
pub use pairs::Pair;
pub use table::{FlowPlan, FlowTable};
