//! The list of the default entries alone, where one address is a DNS server: each call with ample
//! memory.
ghost use Rattle.base_rows.specs.Ledgers.{IsBlankOf};

use acl_compile::Compiled;
use acl_model::{Binding, DefaultRule, MemberKey};
use base_rows::Steps;
use mud_base::{Addr, Bytes, Direction, End, Family, Fields, Listed, Memory, Moment, Transport};
use mud_url::{MudUrl, mud_url};
use rule_export::{Resolved, RuleNumber, export_list, resolved_ruling, resolved_text};
use std::alloc::Global;
use std::marker::Brand;
use std::sync::ledger::{Blank, Ledger};
use std::test::Fail;

/// The class of the DNS servers (RFC 8520, section 4.6).
const DNS: &[u8] = b"urn:ietf:params:mud:dns";

/// 192.0.2.53
const SERVER: Addr = Addr::V4(0xc000_0235);

/// The entry for DNS with the address of the server.
const ENTRY: &[u8] =
    b"{\"actions\":{\"forwarding\":\"accept\"},\"matches\":{\"ipv4\":{\"destination-ipv4-network\":\"192.0.2.53/32\"},\"udp\":{\"destination-port\":{\"operator\":\"eq\",\"port\":53}}},\"name\":\"dns-1\"}";

/// Plans that the server is bound to the class for ever, and does it.
fn bind_server<L: Ledger>(
    alloc: Global,
    compiled: &mut Compiled,
    steps: &mut Steps<L>,
) -> Result<(), Memory> {
    let key = MemberKey::Class(Bytes::new(alloc, DNS)?);
    let binding = Binding {
        key,
        addr: SERVER,
        until: End(End::NEVER),
    };
    let come = Listed::from_vec(vec![in alloc; binding]?);
    let plan = compiled.plan_member(&[], come.as_slice(), steps);
    drop(come);
    compiled.commit(plan?, steps);
    Ok(())
}

/// The list for IPv4 of what a Thing of the URL sends, at the second 1059.
fn list_from<L: Ledger>(
    alloc: Global,
    compiled: &Compiled,
    url: &MudUrl,
    steps: &mut Steps<L>,
) -> Result<Listed<Resolved>, Memory> {
    let moment = Moment::at_most_last(1059);
    let view = compiled.view(url, Direction::From);
    export_list(alloc, view, &[], Family::V4, moment, steps)
}

/// Whether it is the item of the default entry for DNS with the server's address.
fn is_server(item: &Resolved) -> bool {
    let is_first = matches!(item.rule, RuleNumber::Default(DefaultRule::Dns)) && item.number == 1;
    match item.network {
        Some(network) => is_first && network.addr() == SERVER && network.len() == 32,
        None => false,
    }
}

/// The fields of a question to a DNS server.
fn question(server: Addr) -> Fields {
    Fields {
        src: Addr::V4(0xc0a8_0120),
        dst: server,
        protocol: 17,
        dscp: 0,
        ecn: 0,
        length: 60,
        ttl: 64,
        transport: Transport::Udp {
            source: 40_000,
            destination: 53,
        },
    }
}

/// Whether a question to the server is let through by the default entry for DNS, and one to another
/// address matches nothing.
fn rules_by(compiled: &Compiled, url: &MudUrl, list: &[Resolved]) -> bool {
    let view = compiled.view(url, Direction::From);
    let other = compiled.view(url, Direction::From);
    let to_server = resolved_ruling(view, list, question(SERVER), None);
    let to_other = resolved_ruling(other, list, question(Addr::V4(0xc000_0236)), None);
    matches!(to_server, Some(RuleNumber::Default(DefaultRule::Dns))) && to_other.is_none()
}

/// Whether the text of the item is that entry.
fn text_agrees(
    alloc: Global,
    compiled: &Compiled,
    url: &MudUrl,
    item: &Resolved,
) -> Result<bool, Memory> {
    let view = compiled.view(url, Direction::From);
    let text = resolved_text(alloc, view, Family::V4, item)?;
    Ok(text.octets() == ENTRY)
}

/// Whether the list is that of the one item.
fn list_agrees(
    alloc: Global,
    compiled: &Compiled,
    url: &MudUrl,
    list: &[Resolved],
) -> Result<bool, Memory> {
    let [item] = list else {
        return Ok(false);
    };
    Ok(is_server(item) && rules_by(compiled, url, list) && text_agrees(alloc, compiled, url, item)?)
}

/// The same of the list that is made.
fn made_agrees<L: Ledger>(
    alloc: Global,
    compiled: &mut Compiled,
    steps: &mut Steps<L>,
) -> Result<bool, Fail> {
    bind_server(alloc, compiled, steps)?;
    let url = mud_url(b"https://a.example.com/bulb")?;
    let list = list_from(alloc, compiled, &url, steps)?;
    Ok(list_agrees(alloc, compiled, &url, list.as_slice())?)
}

/// The same, with nothing held and bound before.
fn defaults_agree<L: Ledger>(alloc: Global, blank: Blank) -> Result<bool, Fail>
    requires blank { IsBlankOf L.name L.parts blank }
{
    let mut steps = Steps::<L>::new(blank);
    let mut compiled = Compiled::new(alloc)?;
    let agrees = made_agrees(alloc, &mut compiled, &mut steps);
    drop(compiled);
    agrees
}

#[test]
fn defaults_with_one_server_are_one_entry(rt: HostRuntime) -> Result<(), Fail> {
    let agrees = defaults_agree::<Brand>(rt.alloc(), Blank::new(1))?;
    assert!(rt; agrees);
    Ok(())
}
