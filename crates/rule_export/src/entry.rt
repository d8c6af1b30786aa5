//! The text of an entry.
ghost use Rattle.std.specs.Prelude.{◌≡◌, ◌++◌, OnOk, codes};
ghost use Rattle.rule_export.specs.Tests as spec;

use crate::header::append_header;
use crate::layers::{append_icmp, append_tcp, append_udp};
use acl_model::{Action, Entry};
use mud_base::{Bytes, Direction, Family, Memory, Prefix};
use std::alloc::Global;

/// What becomes of a packet that matches (RFC 8519, 4.1, `forwarding`).
#[tactic(auto, unfolding(crate::specs::Tests::forwarding))]
fn forwarding(action: Action) -> &'static [u8]
    ensures { result.now ≡ spec.forwarding action }
{
    match action {
        Action::Accept => b"accept",
        Action::Drop => b"drop",
    }
}

/// Adds the object of all tests.
fn append_matches(
    alloc: Global,
    line: &mut Bytes,
    family: Family,
    side: Direction,
    network: &Option<Prefix>,
    entry: &Entry,
) -> Result<(), Memory>
    ensures { OnOk result (line.new ≡ line.old ++ spec.matches_text family side network.now entry.now) }
{
    line.append(b"{")?;
    let none = append_icmp(line, true, entry.layer)?;
    let none = append_header(alloc, line, none, family, side, network, entry)?;
    let none = append_tcp(line, none, entry.layer)?;
    append_udp(line, none, entry.layer)?;
    line.append(b"}")?;
    Ok(())
}

/// Adds what stands before the tests: what becomes of a packet that passes them.
#[tactic(auto)]
fn append_actions(line: &mut Bytes, action: Action) -> Result<(), Memory>
    ensures { OnOk result (line.new ≡ line.old ++ (codes "{\"actions\":{\"forwarding\":\"" ++ spec.forwarding action ++ codes "\"},\"matches\":")) }
{
    line.append(b"{\"actions\":{\"forwarding\":\"")?;
    line.append(forwarding(action))?;
    line.append(b"\"},\"matches\":")?;
    Ok(())
}

/// Adds what stands behind the tests: the name.
#[tactic(auto)]
fn append_naming(line: &mut Bytes, name: &[u8]) -> Result<(), Memory>
    ensures { OnOk result (line.new ≡ line.old ++ (codes ",\"name\":\"" ++ name.now ++ codes "\"}")) }
{
    line.append(b",\"name\":\"")?;
    line.append(name)?;
    line.append(b"\"}")
}

/// Adds the text of an entry under a name, for packets of IPv4 or of IPv6 that have the Thing on this
/// side. The network, where there is one, stands in place of what the entry's selectors ask of the
/// peer's address. The name has no octet that JSON escapes.
#[tactic(auto, unfolding(crate::specs::Tests::entry_text))]
pub fn append_entry(
    alloc: Global,
    line: &mut Bytes,
    family: Family,
    side: Direction,
    network: &Option<Prefix>,
    name: &[u8],
    entry: &Entry,
) -> Result<(), Memory>
    ensures { OnOk result (line.new ≡ line.old ++ spec.entry_text family side network.now name.now entry.now) }
{
    append_actions(line, entry.action)?;
    append_matches(alloc, line, family, side, network, entry)?;
    append_naming(line, name)
}
