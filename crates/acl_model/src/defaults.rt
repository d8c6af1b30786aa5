//! The default entries.
ghost use Rattle.std.specs.Prelude.{◌≡◌, IfOk};
ghost use Rattle.acl_model.specs.Defaults as spec;

use crate::entry::{Action, Entry, Layer, PortTest, Selector};
use crate::ruling::DefaultRule;
use mud_base::{Bytes, Direction, Family, Listed, Memory};
use std::alloc::Global;

/// The URI of the class of servers (RFC 8520, 17.7).
#[tactic(auto, unfolding(crate::specs::Defaults::default_class))]
fn default_class(which: DefaultRule) -> &'static [u8]
    ensures { result.now ≡ spec.default_class which }
{
    match which {
        DefaultRule::Dns => b"urn:ietf:params:mud:dns",
        DefaultRule::Ntp => b"urn:ietf:params:mud:ntp",
    }
}

/// The port of the servers.
#[tactic(auto, unfolding(crate::specs::Defaults::default_port))]
fn default_port(which: DefaultRule) -> u16
    ensures { result ≡ spec.default_port which }
{
    match which {
        DefaultRule::Dns => 53,
        DefaultRule::Ntp => 123,
    }
}

/// UDP with this port at the peer's side, and any port at the Thing's.
#[tactic(auto, unfolding(crate::specs::Defaults::default_layer))]
fn default_layer(port: u16, side: Direction) -> Layer
    ensures { result ≡ spec.default_layer port side }
{
    match side {
        Direction::From => Layer::Udp {
            source: PortTest::Any,
            destination: PortTest::Eq(port),
        },
        Direction::To => Layer::Udp {
            source: PortTest::Eq(port),
            destination: PortTest::Any,
        },
    }
}

/// The default entry for packets with a Thing on this side: it accepts UDP with the service's port
/// at the peer's side, where the peer is of the service's class (RFC 8520, Appendix A), for both IP
/// versions.
#[tactic(auto, unfolding(crate::specs::Defaults::default_entry))]
pub fn default_entry(alloc: Global, which: DefaultRule, side: Direction) -> Result<Entry, Memory>
    ensures { IfOk result (λ entry. entry ≡ spec.default_entry which side) }
{
    let mut selectors = Listed::new(alloc);
    selectors.push(Selector::Controller(Bytes::new(alloc, default_class(which))?))?;
    Ok(Entry {
        acl: Bytes::empty(alloc),
        name: Bytes::empty(alloc),
        family: Family::Both,
        selectors,
        own: None,
        protocol: None,
        dscp: None,
        ecn: None,
        length: None,
        ttl: None,
        layer: default_layer(default_port(which), side),
        action: Action::Accept,
    })
}
