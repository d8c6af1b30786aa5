//! From which packets names are learnt.
ghost use Rattle.std.specs.Prelude.{◌≡◌, option_copied, codes, bytes_eq};
ghost use Rattle.table_model.specs.Binds.{key_of_class};
ghost use Rattle.table_model.specs.Tables.{is_bound};
ghost use Rattle.run_packets.specs.Snoop.Learning as spec;
ghost use Rattle.table_model.specs.declared.bind.Class.TheVariants.{Uri};

use frame_view::Frame;
use mud_base::{Addr, Transport};
use mud_desk::{JudgedFrame, Verdict};
use packet_judge::forwarded;
use table_model::addrs::has_addr;
use table_model::{Class, ClassRow};

/// The class of DNS servers (RFC 8520, 4.6).
const DNS_CLASS: &[u8] = b"urn:ietf:params:mud:dns";

/// The port of DNS servers (RFC 1035, section 4.2.1).
const DNS_PORT: u16 = 53;

/// Whether a class is that of DNS servers.
#[tactic(auto, unfolding(table_model::specs::Binds::key_of_class))]
fn is_dns_class(class: &Class) -> bool
    ensures { result ≡ bytes_eq (key_of_class class.now) (key_of_class (Uri (codes "urn:ietf:params:mud:dns"))) }
{
    match class {
        Class::Uri(uri) => uri.octets() == DNS_CLASS,
        Class::Mine(_) => false,
    }
}

/// Whether an address is bound to the class of DNS servers.
#[tactic(auto, unfolding(table_model::specs::Tables::is_bound))]
fn is_dns_server(addr: Addr, classes: &[ClassRow]) -> bool
    ensures { result ≡ is_bound (Uri (codes "urn:ietf:params:mud:dns")) addr classes.now }
{
    classes.iter().any(|row| is_dns_class(&row.class) && has_addr(addr, row.addrs.as_slice()))
}

/// Whether a packet came from the port of DNS servers, by UDP.
#[tactic(auto, unfolding(crate::specs::Snoop::Learning::is_from_dns))]
fn is_from_dns(transport: Transport) -> bool
    ensures { result ≡ spec.is_from_dns transport }
{
    match transport {
        Transport::Udp { source, .. } => source == DNS_PORT,
        _ => false,
    }
}

/// Whether a frame with this verdict has a ruling and is forwarded.
#[tactic(auto, unfolding(crate::specs::Snoop::Learning::is_let_through))]
fn is_let_through(verdict: &Verdict) -> bool
    ensures { result ≡ spec.is_let_through verdict.now }
{
    match verdict {
        Verdict::Governed(..) => forwarded(verdict),
        _ => false,
    }
}

/// What names are learnt from: the payload of a packet that has a ruling, is forwarded, and came by
/// UDP from port 53 of an address that is bound to the class of DNS servers. None for every other
/// frame.
#[tactic(auto, unfolding(crate::specs::Snoop::Learning::heard_in))]
pub(crate) fn heard_in<'a>(classes: &[ClassRow], judged: &JudgedFrame<'a>) -> Option<&'a [u8]>
    ensures { option_copied result ≡ spec.heard_in classes.now judged.now.frame judged.now.verdict }
{
    if !is_let_through(&judged.verdict) {
        return None;
    }
    let Frame::Packet(packet) = &judged.frame else {
        return None;
    };
    let fields = packet.fields();
    if !is_from_dns(fields.transport) || !is_dns_server(fields.src, classes) {
        return None;
    }
    Some(packet.payload())
}
