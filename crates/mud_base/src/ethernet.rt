//! The offsets of the head of an Ethernet frame (IEEE 802.3, clause 3).

/// The hardware address that the frame is sent to.
pub const DESTINATION_OFFSET: usize = 0;
/// The hardware address that sent the frame.
pub const SOURCE_OFFSET: usize = 6;
/// The type, of two octets.
pub const TYPE_OFFSET: usize = 12;
/// How many octets the head has.
pub const HEAD_LEN: usize = 14;
