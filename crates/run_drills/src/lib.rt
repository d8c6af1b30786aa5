//! A drill: the commands of a made network run over a desk that holds nothing, its packets are
//! judged, and the counts of the verdicts are written.
#![tactic(auto)]

mod commands;
mod counts;
mod desk;
mod judging;
mod network;
mod packets;
mod running;
mod stop;
mod store;
mod usage;

pub use store::run_drill;
