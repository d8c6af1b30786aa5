//! The entries of access lists.
ghost use Rattle.std.specs.Prelude.{◌≡◌, IfOk};
ghost use Rattle.acl_model.specs.Keys as key;
ghost use Rattle.acl_model.specs.Match as spec;

use mud_base::{Bytes, Direction, Family, Listed, Memory, Prefix};
use mud_url::MudUrl;

/// What an entry asks of the peer's address: the IP address at the other side of the packet (RFC
/// 8520, 2). The first six are member selectors: which addresses meet them comes from leases,
/// bindings of the operator and observed names. The last two are near selectors: the local networks
/// of the operator meet the one, the network that the entry itself names meets the other.
#[derive(Drop)]
pub enum Selector {
    /// An address of the class with this URI (RFC 8520, 4.6).
    Controller(Bytes),
    /// An address that the operator bound to the URL of the Thing's own file (RFC 8520, 4.7).
    MyController,
    /// An address of a Thing whose MUD URL has this host, in lower case (RFC 8520, 4.1).
    Manufacturer(Bytes),
    /// An address of a Thing whose MUD URL has the host of this file's URL (RFC 8520, 4.2).
    SameManufacturer,
    /// An address of a Thing with this MUD URL (RFC 8520, 4.4).
    Model(MudUrl),
    /// An address that this DNS name has, in lower case (RFC 8520, 8).
    Name(Bytes),
    /// An address in one of the local networks (RFC 8520, 4.5).
    LocalNetworks,
    /// An address in this network (RFC 8519, 4.2).
    Network(Prefix),
}

/// A test of a port (RFC 8519, 4.2, `port-range-or-operator`).
#[derive(Clone, Copy)]
pub enum PortTest {
    /// Every port passes.
    Any,
    /// This port alone.
    Eq(u16),
    /// Every port but this one.
    Neq(u16),
    /// Ports up to this one, itself included.
    Lte(u16),
    /// Ports from this one on, itself included.
    Gte(u16),
    /// Ports from the first to the second, both included.
    Within(u16, u16),
}

/// What an entry asks of the transport header (RFC 8519, 4.2, `acl-tcp-header-fields`,
/// `acl-udp-header-fields`, `acl-icmp-header-fields`).
#[derive(Clone, Copy)]
pub enum Layer {
    /// Nothing, whether there is such a header or not.
    Any,
    /// A TCP header with these ports. Where `begun` names a side, the Thing or its peer, it is the
    /// one that began the connection (RFC 8520, 4.8, `direction-initiated`). Where `flags` names an
    /// octet, it is the header's whole flag octet, and no mask.
    Tcp {
        source: PortTest,
        destination: PortTest,
        begun: Option<Direction>,
        flags: Option<u8>,
    },
    /// A UDP header with these ports.
    Udp {
        source: PortTest,
        destination: PortTest,
    },
    /// An ICMP header with this type and code, where they are named.
    Icmp {
        kind: Option<u8>,
        code: Option<u8>,
    },
}

/// What becomes of a packet that an entry matches (RFC 8519, 4.1, `forwarding`).
#[derive(Clone, Copy)]
pub enum Action {
    /// It is forwarded.
    Accept,
    /// It is dropped.
    Drop,
}

/// An entry of an access list (RFC 8519, 4.1, `ace`). It matches a packet where each of its tests
/// passes. The tests that each packet meets stand side by side, before what is seldom read.
#[derive(Drop)]
pub struct Entry {
    /// The IP versions that it is for.
    pub family: Family,
    /// The IP protocol number, where it names one.
    pub protocol: Option<u8>,
    /// The differentiated services code point, 0 to 63, where it names one.
    pub dscp: Option<u8>,
    /// The mark of explicit congestion notification, 0 to 3, where it names one.
    pub ecn: Option<u8>,
    /// The length that the IP header states, in octets, where it names one.
    pub length: Option<u16>,
    /// The time to live or hop limit, in hops, where it names one.
    pub ttl: Option<u8>,
    /// What it asks of the transport header.
    pub layer: Layer,
    /// What becomes of a packet that it matches.
    pub action: Action,
    /// What it asks of the peer's address: each of them is to be met.
    pub selectors: Listed<Selector>,
    /// The network that is to hold the Thing's own address, where there is one.
    pub own: Option<Prefix>,
    /// The name of its access list.
    pub acl: Bytes,
    /// Its own name.
    pub name: Bytes,
}

/// The entries of a usage file (RFC 8520, 3.3). The entries of each list are counted from 1.
#[derive(Drop)]
pub struct Policy {
    /// The entries for what the Thing sends.
    pub outgoing: Listed<Entry>,
    /// The entries for what is sent to the Thing.
    pub incoming: Listed<Entry>,
}

impl PortTest {
    /// Whether a port passes the test.
    #[tactic(auto, unfolding(crate::specs::Match::port_passes))]
    pub fn passes(self, port: u16) -> bool
        ensures { result ≡ spec.port_passes self port }
    {
        match self {
            PortTest::Any => true,
            PortTest::Eq(named) => port == named,
            PortTest::Neq(named) => port != named,
            PortTest::Lte(most) => port <= most,
            PortTest::Gte(least) => least <= port,
            PortTest::Within(least, most) => least <= port && port <= most,
        }
    }
}

impl Selector {
    /// Whether it is a member selector.
    #[tactic(auto, unfolding(crate::specs::Keys::is_member))]
    pub fn is_member(&self) -> bool
        ensures { result ≡ key.is_member self.now }
    {
        match self {
            Selector::LocalNetworks | Selector::Network(_) => false,
            _ => true,
        }
    }

    /// An equal selector.
    pub fn copy(&self) -> Result<Selector, Memory>
        ensures { IfOk result (λ copy. copy ≡ self.now) }
    {
        match self {
            Selector::Controller(uri) => Ok(Selector::Controller(uri.copy()?)),
            Selector::MyController => Ok(Selector::MyController),
            Selector::Manufacturer(host) => Ok(Selector::Manufacturer(host.copy()?)),
            Selector::SameManufacturer => Ok(Selector::SameManufacturer),
            Selector::Model(url) => Ok(Selector::Model(*url)),
            Selector::Name(name) => Ok(Selector::Name(name.copy()?)),
            Selector::LocalNetworks => Ok(Selector::LocalNetworks),
            Selector::Network(prefix) => Ok(Selector::Network(*prefix)),
        }
    }
}

/// Equal selectors, in order.
fn copied_selectors(selectors: &Listed<Selector>) -> Result<Listed<Selector>, Memory>
    ensures { IfOk result (λ copies. copies ≡ selectors.now) }
{
    let mut copies = selectors.empty_like();
    let originals = selectors.as_slice();
    for selector in originals {
        let Ok(copy) = selector.copy() else {
            drop(copies);
            return Err(Memory);
        };
        if copies.push(copy).is_err() {
            drop(copies);
            return Err(Memory);
        }
    }
    Ok(copies)
}

/// Equal entries, in order.
fn copied_entries(entries: &Listed<Entry>) -> Result<Listed<Entry>, Memory>
    ensures { IfOk result (λ copies. copies ≡ entries.now) }
{
    let mut copies = entries.empty_like();
    let originals = entries.as_slice();
    for entry in originals {
        let Ok(copy) = entry.copy() else {
            drop(copies);
            return Err(Memory);
        };
        if copies.push(copy).is_err() {
            drop(copies);
            return Err(Memory);
        }
    }
    Ok(copies)
}

impl Entry {
    /// Whether it has a member selector. An entry with none is called wide.
    #[tactic(auto, unfolding(crate::specs::Keys::is_membered))]
    pub fn is_membered(&self) -> bool
        ensures { result ≡ key.is_membered self.now }
    {
        self.selectors.as_slice().iter().any(Selector::is_member)
    }

    /// An equal entry.
    pub fn copy(&self) -> Result<Entry, Memory>
        ensures { IfOk result (λ copy. copy ≡ self.now) }
    {
        let selectors = copied_selectors(&self.selectors)?;
        let Ok(acl) = self.acl.copy() else {
            drop(selectors);
            return Err(Memory);
        };
        let Ok(name) = self.name.copy() else {
            drop(selectors);
            drop(acl);
            return Err(Memory);
        };
        Ok(Entry {
            acl,
            name,
            family: self.family,
            selectors,
            own: self.own,
            protocol: self.protocol,
            dscp: self.dscp,
            ecn: self.ecn,
            length: self.length,
            ttl: self.ttl,
            layer: self.layer,
            action: self.action,
        })
    }
}

impl Policy {
    /// An equal policy.
    pub fn copy(&self) -> Result<Policy, Memory>
        ensures { IfOk result (λ copy. copy ≡ self.now) }
    {
        Ok(Policy {
            outgoing: copied_entries(&self.outgoing)?,
            incoming: copied_entries(&self.incoming)?,
        })
    }
}
