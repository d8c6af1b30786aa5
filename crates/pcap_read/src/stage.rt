//! Where a reader stands in a capture.
use crate::fault::CapFault;
use mud_base::ByteOrder;

/// How far a capture was read.
#[derive(Clone, Copy)]
pub enum Stage {
    /// The header wasn't read yet.
    Start,
    /// The header was read, and all numbers have this order.
    Reading(ByteOrder),
    /// There was a fault.
    Failed(CapFault),
}

/// How far a capture was read, how many packets were handed out, and the offset of the next head.
#[derive(Clone, Copy)]
pub struct Progress {
    pub stage: Stage,
    pub count: u32,
    pub offset: u64,
}

/// Where a reader stands between two packets: the order of numbers, how many packets stand before
/// it, and the offset of the next head.
#[derive(Clone, Copy)]
pub struct Cursor {
    pub order: ByteOrder,
    pub count: u32,
    pub offset: u64,
}

/// What is known of a packet beside its octets.
#[derive(Clone, Copy)]
pub struct Current {
    pub number: u32,
    pub at: u64,
    pub seconds: u32,
}

/// Where a step leads, and the packet that it met.
#[derive(Clone, Copy)]
pub struct Next {
    pub progress: Progress,
    pub current: Option<Current>,
}
