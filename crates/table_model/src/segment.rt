//! TCP packets, of which the history of connections is a list.
ghost use Rattle.std.specs.Prelude.{◌≡◌};
ghost use Rattle.table_model.specs.History as spec;

use mud_base::{Addr, Direction, Fields, Moment, Transport, same_addr};

/// An endpoint of a connection: an address and a port.
pub type Endpoint = (Addr, u16);

/// A TCP packet that had a ruling and was forwarded.
#[derive(Clone, Copy)]
pub struct Segment {
    /// The endpoint that sent it.
    pub source: Endpoint,
    /// The endpoint that it goes to.
    pub destination: Endpoint,
    /// The octet of its flags (RFC 9293, 3.1): FIN 1, SYN 2, RST 4, PSH 8, ACK 16.
    pub flags: u8,
    /// When it was forwarded.
    pub at: Moment,
}

/// The TCP packet with these fields at this moment, or None where they have no TCP header.
#[tactic(auto, unfolding(crate::specs::History::segment_of))]
pub fn segment_of(fields: &Fields, now: Moment) -> Option<Segment>
    ensures { result ≡ spec.segment_of fields.now now }
{
    match fields.transport {
        Transport::Tcp {
            source,
            destination,
            flags,
        } => Some(Segment {
            source: (fields.src, source),
            destination: (fields.dst, destination),
            flags,
            at: now,
        }),
        Transport::Udp { .. } => None,
        Transport::Icmp { .. } => None,
        Transport::Absent => None,
    }
}

/// Whether both are one endpoint.
#[tactic(auto, unfolding(crate::specs::History::same_endpoint))]
fn same_endpoint(a: Endpoint, b: Endpoint) -> bool
    ensures { result ≡ spec.same_endpoint a b }
{
    same_addr(a.0, b.0) && a.1 == b.1
}

impl Segment {
    /// Whether it opens a connection: SYN is set, and ACK and RST are clear.
    #[tactic(auto, unfolding(crate::specs::History::opens))]
    pub fn opens(&self) -> bool
        ensures { result ≡ spec.opens self.now }
    {
        self.flags & 22 == 2
    }

    /// Whether it resets its connection: RST is set.
    #[tactic(auto, unfolding(crate::specs::History::resets))]
    pub fn resets(&self) -> bool
        ensures { result ≡ spec.resets self.now }
    {
        self.flags & 4 == 4
    }

    /// Who began its connection, as a Thing on this side of it sees it: `From` where the Thing's
    /// own endpoint did, and else `To`.
    #[tactic(auto, unfolding(crate::specs::History::side_of))]
    pub fn side_of(&self, side: Direction, began: Option<Endpoint>) -> Option<Direction>
        ensures { result ≡ spec.side_of side self.now began }
    {
        let Some(began) = began else {
            return None;
        };
        let own = match side {
            Direction::From => self.source,
            Direction::To => self.destination,
        };
        if same_endpoint(began, own) {
            Some(Direction::From)
        } else {
            Some(Direction::To)
        }
    }
}
