//! The lines of what is learnt. Each ends with a line feed.
ghost use Rattle.std.specs.Prelude.{◌≡◌, ◌++◌, OnOk, codes};
ghost use Rattle.run_packets.specs.Snoop.Lines as spec;
ghost use Rattle.text_values.specs.Numbers.{offset_text};
ghost use Rattle.dns_snoop.specs.Fault as dns_fault;

use desk_model::texts::append_reply_words;
use dns_snoop::DnsFault;
use mud_base::{Addr, Bytes, Memory};
use mud_desk::Reply;
use std::alloc::Global;
use text_values::{append_addr, append_number, append_offset};

/// Adds the line of an address that was learnt for a name, for so many seconds: `name`, all three,
/// and what was replied to its observation.
#[tactic(auto, unfolding(crate::specs::Snoop::Lines::name_line))]
pub(crate) fn append_name(
    alloc: Global,
    lines: &mut Bytes,
    name: &[u8],
    row: (Addr, u32),
    reply: &Reply,
) -> Result<(), Memory>
    ensures { OnOk result (lines.new ≡ lines.old ++ spec.name_line name.now row reply.now) }
{
    lines.append(b"name ")?;
    lines.append(name)?;
    lines.append(b" ")?;
    append_addr(alloc, lines, row.0)?;
    append_number(lines, u64::from(row.1))?;
    append_reply_words(alloc, lines, reply)?;
    lines.append(b"\n")
}

/// Adds the line of a DNS message that isn't read: `dns fault`, the fault's name, and its offset
/// where it has one.
#[tactic(auto)]
pub(crate) fn append_dns_fault(lines: &mut Bytes, fault: DnsFault) -> Result<(), Memory>
    ensures { OnOk result (lines.new ≡ lines.old ++ (codes "dns fault " ++ dns_fault.name_of fault ++ offset_text (dns_fault.offset_of fault) ++ codes "\n")) }
{
    lines.append(b"dns fault ")?;
    lines.append(fault.name().as_bytes())?;
    append_offset(lines, fault.offset().map(|offset| offset as u64))?;
    lines.append(b"\n")
}
