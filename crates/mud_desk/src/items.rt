//! The items in which a desk is kept, read one after the other in the keeper's order. A keeper is
//! opened over them: they are read whole before anything is written, and then each Thing of the first
//! version of its record is put anew in the second.

pub mod fault;
pub mod loaded;
pub mod opening;
mod stamp;

pub use fault::OpenFault;
pub use loaded::Loaded;
pub use opening::open_items;
