//! A capture that is judged over a store, while names are learnt from the answers of its DNS servers.

mod capture;
pub mod laws;
mod learning;
mod line;
mod observing;
mod packet;
mod store;

pub use store::snoop_store;
