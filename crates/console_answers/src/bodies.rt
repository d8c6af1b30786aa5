//! The JSON bodies of answers that may take no memory: of a rule alone, of what a command did, of
//! what was heard, and of a verdict. Each is written into a buffer that was taken before.

pub mod heard;
pub mod outcomes;
mod puts;
pub mod verdicts;

pub use heard::{HeardTexts, heard_texts, write_heard, write_nothing_heard};
pub use outcomes::{write_file, write_rule, write_stated};
pub use verdicts::write_verdict;
