//! The verdict on a frame.
ghost use Rattle.std.specs.Prelude.{◌≡◌, ℕ, IfSome, IsSome};
ghost use Rattle.table_model.specs.History.{segment_of};
ghost use Rattle.packet_judge.specs.Verdicts as spec;

use acl_model::Ruling;
use frame_view::{Frame, Part};
use mud_base::{Fields, Transport};

/// What is decided on a frame.
#[derive(Clone, Copy)]
pub enum Verdict {
    /// Neither endpoint is a Thing.
    Unmanaged,
    /// It isn't IP, or it keeps the link up.
    Link,
    /// This part of it can't be read.
    Unreadable(Part),
    /// It carries an IP packet. The ruling on the packet of the Thing that sent it comes first,
    /// then that of the Thing that it is for; None for an endpoint that is no Thing.
    Governed(Option<Ruling>, Option<Ruling>),
}

/// Whether a ruling accepts, where there is one.
#[tactic(auto, unfolding(crate::specs::Verdicts::accepts))]
fn accepts(ruling: Option<Ruling>) -> bool
    ensures { result ≡ spec.accepts ruling }
{
    match ruling {
        None => true,
        Some(Ruling::Accept(_)) => true,
        Some(Ruling::AcceptDefault(_)) => true,
        Some(Ruling::Drop(_)) => false,
        Some(Ruling::DropDefault(_)) => false,
        Some(Ruling::DropHeld) => false,
    }
}

/// Whether a frame with this verdict is forwarded: one that is unmanaged or keeps the link up, and
/// one in which each ruling accepts.
#[tactic(auto, unfolding(crate::specs::Verdicts::forwarded))]
pub fn forwarded(verdict: &Verdict) -> bool
    ensures { result ≡ spec.forwarded verdict.now }
{
    match verdict {
        Verdict::Unmanaged => true,
        Verdict::Link => true,
        Verdict::Unreadable(_) => false,
        Verdict::Governed(source, destination) => accepts(*source) && accepts(*destination),
    }
}

/// Whether a packet with these fields has a TCP header.
#[tactic(auto, unfolding(crate::specs::Verdicts::is_tcp))]
fn is_tcp(fields: &Fields) -> bool
    ensures { result ≡ spec.is_tcp fields.now.transport }
{
    match fields.transport {
        Transport::Tcp { .. } => true,
        Transport::Udp { .. } => false,
        Transport::Icmp { .. } => false,
        Transport::Absent => false,
    }
}

/// The fields of a packet that counts for the connections: a TCP packet with a ruling that is
/// forwarded. None for every other frame.
#[tactic(auto, unfolding(crate::specs::Verdicts::noted_fields, crate::specs::Verdicts::is_tcp, table_model::specs::History::segment_of))]
pub fn noted_fields(frame: &Frame<'_>, verdict: &Verdict) -> Option<Fields>
    ensures value { result ≡ spec.noted_fields frame.now verdict.now }
    // It is a TCP packet.
    ensures tcp { (now : ℕ) → IfSome result (λ fields. IsSome (segment_of fields now)) }
{
    let Frame::Packet(packet) = frame else {
        return None;
    };
    let Verdict::Governed(..) = verdict else {
        return None;
    };
    let fields = packet.fields();
    if forwarded(verdict) && is_tcp(&fields) {
        Some(fields)
    } else {
        None
    }
}
