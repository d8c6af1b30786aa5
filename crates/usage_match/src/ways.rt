//! How the members of the containers are read: a way for each row of a container's table, and what
//! the rows of `tcp`, `udp` and `icmp` mean together.
use crate::entry_tests::{IpTests, ListType, MudTests};
use acl_model::{Layer, PortTest};
use mud_base::Direction;

/// How a member of `ietf-mud:mud` is read (RFC 8520, 4), each for the test of this name.
#[derive(Clone, Copy)]
pub enum MudWay {
    /// A text that is a host name.
    Manufacturer,
    /// An empty leaf.
    SameManufacturer,
    /// A text that is a MUD URL.
    Model,
    /// An empty leaf.
    LocalNetworks,
    /// A text that is the URI of a class.
    Controller,
    /// An empty leaf.
    MyController,
}

/// How a member of `ipv4` or `ipv6` is read (RFC 8519, 4.2; RFC 8520, 8).
#[derive(Clone, Copy)]
pub enum IpWay {
    /// A number up to 63.
    Dscp,
    /// A number up to 3.
    Ecn,
    /// A number up to 65535.
    Length,
    /// A number up to 255.
    Ttl,
    /// A number up to 255.
    Protocol,
    /// A text that is a prefix of this IP version.
    Source(ListType),
    /// A text that is a prefix of this IP version.
    Destination(ListType),
    /// A text that is a host name. It may not stand where it is the Thing's own name.
    SourceName(bool),
    /// A text that is a host name. It may not stand where it is the Thing's own name.
    DestinationName(bool),
}

/// The transport layers that may be asked for.
#[derive(Clone, Copy)]
pub enum LayerKind {
    /// `tcp`.
    Tcp,
    /// `udp`.
    Udp,
    /// `icmp`.
    Icmp,
}

/// How a member of `tcp`, `udp` or `icmp` is read (RFC 8519, 4.2; RFC 8520, 4.8).
#[derive(Clone, Copy)]
pub enum LayerWay {
    /// A port container.
    Source,
    /// A port container.
    Destination,
    /// A text that is a direction.
    Begun,
    /// A text that is a list of flags.
    Flags,
    /// A number up to 255.
    Kind,
    /// A number up to 255.
    Code,
    /// It is refused where it stands: it is of `tcp` alone.
    Refused,
}

/// What `tcp`, `udp` or `icmp` asks of the header.
#[derive(Clone, Copy)]
pub struct LayerTests {
    /// The test of the source port.
    pub source: PortTest,
    /// The test of the destination port.
    pub destination: PortTest,
    /// The side that is to have begun the connection.
    pub begun: Option<Direction>,
    /// The octet of flags.
    pub flags: Option<u8>,
    /// The type.
    pub kind: Option<u8>,
    /// The code.
    pub code: Option<u8>,
}

/// How a member of `matches` is read (RFC 8519, 4.1; RFC 8520, 4).
#[derive(Clone, Copy)]
pub enum MatchWay {
    /// The container `ietf-mud:mud`.
    Mud,
    /// The container of the IP version of a list, which is read for a direction.
    Ip(ListType, Direction),
    /// It doesn't stand: it is of the other IP version.
    Refused,
    /// The container `tcp`, `udp` or `icmp`.
    Layer(LayerKind),
}

/// What the members of `matches` ask.
#[derive(Drop)]
pub struct MatchTests {
    /// What `ietf-mud:mud` asks.
    pub mud: MudTests,
    /// What `ipv4` or `ipv6` asks.
    pub ip: IpTests,
    /// What is asked of the transport header.
    pub layer: Layer,
}
