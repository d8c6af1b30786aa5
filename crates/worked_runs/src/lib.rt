//! Runs of the program over a door, a keeper, a spool and a clock in memory, each proved to end as it
//! does by the contract of the top call alone.
#![tactic(auto)]

mod captures;
mod ended;
mod given;
mod hear;
mod import;
mod others;
mod report;
mod words;

pub use captures::{frames_of_none, judge_none, snoop_none, tally_none};
pub use ended::{Ended, Given};
pub use hear::{check_no_octets, hear_frame, hear_lease, hear_no_message};
pub use import::import_no_file;
pub use others::{drill_one, no_command, replay_no_octets};
pub use report::{export_no_thing, report_bad_item, report_no_things};
