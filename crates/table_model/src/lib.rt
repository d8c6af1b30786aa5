//! The tables of the manager, and what its commands make of them: the Things with their leases, the
//! classes, the local networks and the names; which addresses a selector means; the ruling on a
//! packet; who began a connection; and the items in which the tables are kept. The types are here,
//! and their meaning is in the definitions of `specs`.
#![tactic(auto)]

pub mod addrs;
pub mod bind;
pub mod bind_fault;
pub mod expiries;
pub mod fields;
pub mod item_laws;
pub mod laws;
pub mod limits;
pub mod segment;
pub mod sound;
pub mod thing;
pub mod thing_fault;
pub mod thing_laws;

pub use bind::{Class, ClassRow, NameKey, NameRow};
pub use bind_fault::BindFault;
pub use segment::{Endpoint, Segment};
pub use thing::Thing;
pub use thing_fault::ThingFault;
