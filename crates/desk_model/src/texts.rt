//! The texts of rulings and verdicts, as lines and answers have them, and what is written of the
//! reply to a command, behind what names it.

pub mod verdict;
pub mod verdict_words;
pub mod words;

pub use verdict::{append_ruling, append_unreadable, append_verdict};
pub use verdict_words::{default_name, part_name, passing, why_name};
pub use words::append_reply_words;
