//! What the body of a request to the console means: the command that it states, or the first thing
//! in it that is wrong. A member that is missing, of another JSON kind, or outside its grammar or
//! range is a fault that names it; members that nobody asks for are ignored.
#![tactic(auto)]

pub mod asked;
mod classes;
pub mod fault;
pub mod laws;
pub mod member;
mod object;
mod prefixes;
mod read;
mod statements;
mod texts;
mod values;

pub use asked::{Asked, heard_command};
pub use fault::{BodyFault, Unread};
pub use member::Member;
pub use read::read_body;
