//! The lists that the manager keeps, the moment of their last change, and the rows that are
//! compiled of them, made anew where a desk is opened. A command is planned first, in its book, in
//! the rows and in the batch by which it is kept, which takes all memory and leaves everything as
//! it is; then the change is committed, which takes none and can't fail.
#![tactic(auto)]

mod batch;
pub mod books;
pub mod change;
pub mod compiling;
mod listing;
pub mod lists;
mod rows;

pub use books::DeskBooks;
pub use change::{BookChange, DeskChange};
pub use compiling::compile;
