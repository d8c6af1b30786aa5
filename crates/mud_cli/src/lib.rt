//! The commands of the program over any door, spool, clock and keeper.
#![tactic(auto)]

mod answer;
mod check;
mod frames;
mod hear;
pub mod laws;
mod run;

pub use run::mud_main;
pub use run_common::Status;
