//! The console over a door's connections: the reply to each request as the written console has it,
//! its octets, and the session after it. Each whole request is answered once by the desk, in its
//! session and at its moment, and the answers are written in order.
#![tactic(auto)]

mod answer;
mod body;
mod commands;
mod console;
mod due;
mod heard;
mod listings;
mod packets;
mod question;
mod refusals;
mod replies;
mod serve;
mod session;
mod why;

pub use answer::{Answer, answer_request};
pub use console::Console;
pub use http_requests::ConnectionEnd;
pub use serve::{serve_connection, serve_connections};
