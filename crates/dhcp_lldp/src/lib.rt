//! What a Thing announces of itself, and what it is leased: DHCPv4 messages (RFC 2131, RFC 2132)
//! with the MUD URL option (RFC 8520, section 10), and LLDP frames (IEEE 802.1AB) with the MUD URL
//! TLV (RFC 8520, section 12). Nothing here takes memory.
#![tactic(auto)]

mod contents;
pub mod dhcp;
pub mod heard;
pub mod lldp;
mod mud;
mod options;
mod seen;
mod tlvs;

pub use dhcp::read_dhcp;
pub use heard::{HearFault, Heard};
pub use lldp::read_lldp;
