//! MUD URLs (RFC 8520, 6): reading one, its canonical text and its host, and host names.
#![tactic(auto)]

mod canonical;
pub mod fault;
pub mod host;
pub mod laws;
mod parts;
pub mod url;

pub use fault::UrlFault;
pub use host::host_name;
pub use parts::before_query;
pub use url::{MudUrl, canonical_url, mud_string, mud_url};
