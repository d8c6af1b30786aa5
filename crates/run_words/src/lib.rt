//! The words of the command line, and the commands that they are.
#![tactic(auto)]

pub mod command;
pub mod operands;
mod parser;
pub mod usage;
pub mod words;

pub use command::{Command, Message, ReportKind};
pub use operands::{folder_word, store_word};
pub use usage::USAGE;
pub use words::command_of;
