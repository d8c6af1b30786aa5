//! Why a body has no reading.
use crate::member::Member;
use dhcp_lldp::HearFault;
use mud_base::Refusal;

/// What is wrong with a body.
#[derive(Clone, Copy)]
pub enum BodyFault {
    /// It is no JSON object (RFC 8259).
    Json,
    /// This member is missing, of another kind, or outside its grammar or range; it is the first
    /// one, in the order in which the route's members are read.
    Member(Member),
    /// The body is a message, and it is refused.
    Heard(HearFault),
}

/// Why a body has no reading: want of memory, or what is wrong with it.
pub type Unread = Refusal<BodyFault>;
