//! The commands `replay` and `serve`: a desk is opened over a store, and the requests of a door's
//! connections are answered by it.

mod no_clock;
pub(crate) mod replay;
mod room;
pub(crate) mod serve;
