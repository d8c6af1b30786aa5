//! The book of bindings: the classes, the local networks and the names that are kept. A command is
//! planned, which takes all memory that it needs and changes nothing, and then committed, which
//! takes none and cannot fail.
#![tactic(auto)]

pub mod book;
pub mod change;
mod classes;
mod items;
pub mod laws;
mod locals;
mod names;
mod read;

pub use book::BindBook;
pub use change::BindChange;
pub use item_codec::Word;
pub use table_model::{BindFault, Class, ClassRow, NameRow};
