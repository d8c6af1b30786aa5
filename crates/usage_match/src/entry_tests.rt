//! The tests of an entry.
use acl_model::{Layer, Selector};
use mud_base::{Bytes, Listed, Prefix};
use mud_url::MudUrl;

/// The type of an access list: the IP version that its entries are for (RFC 8519, 4.1). Lists of
/// other types are refused.
#[derive(Clone, Copy)]
pub enum ListType {
    /// `ipv4-acl-type`.
    Ipv4,
    /// `ipv6-acl-type`.
    Ipv6,
}

/// How a port is compared with the one that is named (RFC 8519, 4.2, `operator`).
#[derive(Clone, Copy)]
pub enum Operator {
    /// `eq`: it is that port.
    Eq,
    /// `neq`: it is another port.
    Neq,
    /// `lte`: it is that port or one below it.
    Lte,
    /// `gte`: it is that port or one above it.
    Gte,
}

/// What the container `ietf-mud:mud` asks of the peer (RFC 8520, 4.1 to 4.7).
#[derive(Drop)]
pub struct MudTests {
    /// The host of the peer's MUD URL, in lower case.
    pub manufacturer: Option<Bytes>,
    /// Whether the peer's MUD URL has the host of this file's.
    pub same_manufacturer: bool,
    /// The peer's MUD URL.
    pub model: Option<MudUrl>,
    /// Whether the peer is in a local network.
    pub local_networks: bool,
    /// The URI of the peer's class.
    pub controller: Option<Bytes>,
    /// Whether the peer is a controller of Things with this file's URL.
    pub my_controller: bool,
}

/// What the container `ipv4` or `ipv6` asks (RFC 8519, 4.2; RFC 8520, 8), each at its side of the
/// packet.
#[derive(Drop)]
pub struct IpTests {
    /// The codepoint of differentiated services, from 0 to 63.
    pub dscp: Option<u8>,
    /// The field of explicit congestion notification, from 0 to 3.
    pub ecn: Option<u8>,
    /// The length in octets that the IP header names.
    pub length: Option<u16>,
    /// The time to live of IPv4, the hop limit of IPv6.
    pub ttl: Option<u8>,
    /// The protocol number.
    pub protocol: Option<u8>,
    /// The network that holds the source address.
    pub source: Option<Prefix>,
    /// The network that holds the destination address.
    pub destination: Option<Prefix>,
    /// The DNS name of the source, in lower case.
    pub source_name: Option<Bytes>,
    /// The DNS name of the destination, in lower case.
    pub destination_name: Option<Bytes>,
}

/// What an entry tests.
#[derive(Drop)]
pub struct Tests {
    /// What it asks of the peer's address.
    pub selectors: Listed<Selector>,
    /// The network that is to hold the Thing's own address.
    pub own: Option<Prefix>,
    /// The protocol number.
    pub protocol: Option<u8>,
    /// The codepoint of differentiated services, from 0 to 63.
    pub dscp: Option<u8>,
    /// The field of explicit congestion notification, from 0 to 3.
    pub ecn: Option<u8>,
    /// The length in octets that the IP header names.
    pub length: Option<u16>,
    /// The time to live of IPv4, the hop limit of IPv6.
    pub ttl: Option<u8>,
    /// What it asks of the transport header.
    pub layer: Layer,
}
