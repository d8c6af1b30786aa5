//! The values that every part of the manager speaks of: hardware and IP addresses, prefixes,
//! moments, octet strings, lists, and the texts of them; fields of octets by their offset, so many
//! octets, a hardware address, or a number in either order of its octets; and readings of values
//! that were taken apart, as a list of checks in an order, and a meaning.
#![tactic(auto)]

pub mod addr;
pub mod bytes;
pub mod checks;
pub mod decimal;
pub mod ethernet;
pub mod laws;
pub mod listed;
pub mod memory;
pub mod moment;
pub mod number;
mod offset;
pub mod order;
pub mod packet;
pub mod prefix;
pub mod read;
pub mod refusal;
pub mod short_text;
pub mod texts;

pub use addr::{Addr, Family, Mac, addr_order, same_addr};
pub use bytes::Bytes;
pub use checks::{refuse_where, wanted};
pub use decimal::number_upto;
pub use listed::Listed;
pub use memory::Memory;
pub use moment::{End, Moment};
pub use number::{ByteOrder, big_16, big_32, big_64, big_128, number_16, number_32};
pub use offset::{is_group_at, mac_at, octets_at};
pub use order::octets_order;
pub use packet::{Direction, Fields, Transport, side_order};
pub use prefix::Prefix;
pub use read::{addr_of, mac_of, moment_of, prefix_of};
pub use refusal::Refusal;
pub use short_text::ShortText;
pub use texts::{addr_text, mac_text, prefix_text};
