//! The answers of the console as HTTP/1.1 messages (RFC 9112): the lines of a head, and what of the
//! body follows it. A buffer for answers is taken once: what is written into it takes no memory.
//! JSON strings are put into it, or added to octet strings that grow. The bodies that follow a change
//! are written into it too.
#![tactic(auto)]

pub mod appends;
pub mod bodies;
pub mod buffer;
pub mod head;
mod plain;
pub mod status;
pub mod texts;

pub use appends::append_quoted;
pub use buffer::AnswerBuffer;
pub use head::{body_part, write_head};
pub use status::Status;
