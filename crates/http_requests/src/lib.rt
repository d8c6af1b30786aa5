//! The requests of an HTTP connection, over every cut of its octets: heads and bodies as `httparse`
//! and the header fields frame them, the faults that end a connection, and the buffer through which
//! they are read of a door. And serving the connections of a door, whatever answers: each whole
//! request is carried out once and answered before more is read, a fault of the framing is answered
//! and ends its connection, and what answers keeps a state from request to request and from
//! connection to connection.
#![tactic(auto)]

pub mod buffer;
pub mod connections;
pub mod end;
pub mod fault;
mod fields;
mod framing;
pub mod laws;
mod lengths;
pub mod next;
pub mod parts;
pub mod seek;
pub mod serve;
pub mod service;
pub mod shape;
pub mod stop;

pub use buffer::RequestBuffer;
pub use connections::serve_connections;
pub use end::ConnectionEnd;
pub use fault::{FramingFault, MomentFrom, RequestFault, is_head};
pub use next::{DoorFault, Next, next_request};
pub use parts::{RequestParts, parts_of};
pub use seek::HeadStep;
pub use serve::serve_connection;
pub use service::Service;
pub use shape::RequestShape;
pub use stop::{MOST_REQUESTS, Stop, stop_of};
