//! The tests of the IP header.
ghost use Rattle.std.specs.Prelude.{◌≡◌, ◌++◌, true, OnOk, IfOk};
ghost use Rattle.rule_export.specs.Objects.{member_text, next_first, object};
ghost use Rattle.rule_export.specs.Tests as spec;

use crate::members::{append_name, append_number, append_octet};
use acl_model::Entry;
use mud_base::{Bytes, Direction, Family, Memory, Prefix};
use std::alloc::Global;
use text_values::append_prefix;

/// The name of the container of the IP header's tests.
#[tactic(auto, unfolding(crate::specs::Tests::version_name))]
pub(crate) fn version_name(family: Family) -> &'static [u8]
    ensures { result.now ≡ spec.version_name family }
{
    match family {
        Family::V4 => b"ipv4",
        Family::V6 | Family::Both => b"ipv6",
    }
}

/// The name of the member for the source address.
#[tactic(auto, unfolding(crate::specs::Tests::source_name))]
fn source_name(family: Family) -> &'static [u8]
    ensures { result.now ≡ spec.source_name family }
{
    match family {
        Family::V4 => b"source-ipv4-network",
        Family::V6 | Family::Both => b"source-ipv6-network",
    }
}

/// The name of the member for the destination address.
#[tactic(auto, unfolding(crate::specs::Tests::destination_name))]
fn destination_name(family: Family) -> &'static [u8]
    ensures { result.now ≡ spec.destination_name family }
{
    match family {
        Family::V4 => b"destination-ipv4-network",
        Family::V6 | Family::Both => b"destination-ipv6-network",
    }
}

/// The network that is to hold the source address: the Thing's own where it sends, and the peer's
/// where it receives.
#[tactic(auto, unfolding(crate::specs::Tests::source_network))]
fn source_network(side: Direction, network: &Option<Prefix>, entry: &Entry) -> Option<Prefix>
    ensures { result ≡ spec.source_network side network.now entry.now }
{
    match side {
        Direction::From => entry.own,
        Direction::To => *network,
    }
}

/// The network that is to hold the destination address.
#[tactic(auto, unfolding(crate::specs::Tests::destination_network))]
fn destination_network(side: Direction, network: &Option<Prefix>, entry: &Entry) -> Option<Prefix>
    ensures { result ≡ spec.destination_network side network.now entry.now }
{
    match side {
        Direction::From => *network,
        Direction::To => entry.own,
    }
}

/// Whether something is asked of the IP header.
#[tactic(auto, unfolding(crate::specs::Tests::asks_header))]
fn asks_header(network: &Option<Prefix>, entry: &Entry) -> bool
    ensures { result ≡ spec.asks_header network.now entry.now }
{
    network.is_some()
        || entry.own.is_some()
        || entry.protocol.is_some()
        || entry.dscp.is_some()
        || entry.ecn.is_some()
        || entry.length.is_some()
        || entry.ttl.is_some()
}

/// Adds the member of a network, where there is one. The answer says whether the next member is the
/// first.
#[tactic(auto, unfolding(crate::specs::Objects::member_text, crate::specs::Objects::next_first, crate::specs::Objects::quoted, crate::specs::Tests::network_value))]
fn append_network(
    alloc: Global,
    line: &mut Bytes,
    first: bool,
    name: &[u8],
    network: Option<Prefix>,
) -> Result<bool, Memory>
    ensures text { OnOk result (line.new ≡ line.old ++ member_text first (name.now, spec.network_value network)) }
    ensures next { IfOk result (λ next. next ≡ next_first first (name.now, spec.network_value network)) }
{
    let Some(network) = network else {
        return Ok(first);
    };
    append_name(line, first, name)?;
    line.append(b"\"")?;
    append_prefix(alloc, line, network)?;
    line.append(b"\"")?;
    Ok(false)
}

/// Adds the member of the destination address, where something is asked of it. The answer says
/// whether the next member is the first.
fn append_destination(
    alloc: Global,
    line: &mut Bytes,
    family: Family,
    side: Direction,
    network: &Option<Prefix>,
    entry: &Entry,
) -> Result<bool, Memory>
    ensures text { OnOk result (line.new ≡ line.old ++ member_text true (spec.destination_member family side network.now entry.now)) }
    ensures next { IfOk result (λ next. next ≡ next_first true (spec.destination_member family side network.now entry.now)) }
{
    let destination = destination_network(side, network, entry);
    append_network(alloc, line, true, destination_name(family), destination)
}

/// Adds the member of the source address, where something is asked of it. The answer says whether
/// the next member is the first.
fn append_source(
    alloc: Global,
    line: &mut Bytes,
    first: bool,
    family: Family,
    side: Direction,
    network: &Option<Prefix>,
    entry: &Entry,
) -> Result<bool, Memory>
    ensures text { OnOk result (line.new ≡ line.old ++ member_text first (spec.source_member family side network.now entry.now)) }
    ensures next { IfOk result (λ next. next ≡ next_first first (spec.source_member family side network.now entry.now)) }
{
    let source = source_network(side, network, entry);
    append_network(alloc, line, first, source_name(family), source)
}

/// Adds the object of the tests of the IP header.
fn append_tests(
    alloc: Global,
    line: &mut Bytes,
    family: Family,
    side: Direction,
    network: &Option<Prefix>,
    entry: &Entry,
) -> Result<(), Memory>
    ensures { OnOk result (line.new ≡ line.old ++ object (spec.header_members family side network.now entry.now)) }
{
    line.append(b"{")?;
    let none = append_destination(alloc, line, family, side, network, entry)?;
    let none = append_octet(line, none, b"dscp", entry.dscp)?;
    let none = append_octet(line, none, b"ecn", entry.ecn)?;
    let none = append_number(line, none, b"length", entry.length)?;
    let none = append_octet(line, none, b"protocol", entry.protocol)?;
    let none = append_source(alloc, line, none, family, side, network, entry)?;
    append_octet(line, none, b"ttl", entry.ttl)?;
    line.append(b"}")?;
    Ok(())
}

/// Adds the member of the IP header's tests, where there are any. The answer says whether the next
/// member is the first.
#[tactic(auto, unfolding(crate::specs::Objects::member_text, crate::specs::Objects::next_first, crate::specs::Tests::header_value))]
pub(crate) fn append_header(
    alloc: Global,
    line: &mut Bytes,
    first: bool,
    family: Family,
    side: Direction,
    network: &Option<Prefix>,
    entry: &Entry,
) -> Result<bool, Memory>
    ensures text { OnOk result (line.new ≡ line.old ++ member_text first (spec.version_name family, spec.header_value family side network.now entry.now)) }
    ensures next { IfOk result (λ next. next ≡ next_first first (spec.version_name family, spec.header_value family side network.now entry.now)) }
{
    if !asks_header(network, entry) {
        return Ok(first);
    }
    append_name(line, first, version_name(family))?;
    append_tests(alloc, line, family, side, network, entry)?;
    Ok(false)
}
