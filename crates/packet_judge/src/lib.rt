//! The ruling on a packet of a Thing by the rows of a view, and the verdict on a frame.
#![tactic(auto)]

mod judging;
pub mod laws;
mod question;
mod ruling;
mod verdict;

pub use acl_model::{DefaultRule, Ruling, Why};
pub use judging::{RuleSource, judge};
pub use ruling::rule;
pub use verdict::{Verdict, forwarded, noted_fields};
