//! Things with their leases.
ghost use Rattle.std.specs.Prelude.{◌≡◌, ◌++◌, OnOk, flat_map, codes, if◌then◌else◌};
ghost use Rattle.run_reports.specs.Rows as spec;

use crate::row::{ReportRow, append_expiring, append_word};
use mud_base::{Addr, Bytes, End, Mac, Memory};
use mud_url::MudUrl;
use std::alloc::Global;
use table_model::Thing;
use text_values::append_mac;

/// Adds the URL that waits for the operator, or `-`.
#[tactic(auto, unfolding(crate::specs::Rows::pending_word))]
fn append_pending(line: &mut Bytes, pending: &Option<MudUrl>) -> Result<(), Memory>
    ensures { OnOk result (line.new ≡ line.old ++ spec.word_part (spec.pending_word pending.now)) }
{
    match pending {
        Some(url) => append_word(line, url.text()),
        None => append_word(line, b"-"),
    }
}

/// The word for whether the operator holds a Thing.
#[tactic(auto)]
fn hold_word(held: bool) -> &'static [u8]
    ensures { result.now ≡ if held then codes "held" else codes "-" }
{
    if held { b"held" } else { b"-" }
}

/// Adds the line of a Thing.
#[tactic(auto, unfolding(crate::specs::Rows::thing_line))]
fn append_thing(alloc: Global, line: &mut Bytes, thing: &Thing) -> Result<(), Memory>
    ensures { OnOk result (line.new ≡ line.old ++ spec.thing_line thing.now) }
{
    line.append(b"thing ")?;
    append_mac(alloc, line, thing.mac)?;
    append_word(line, thing.url.text())?;
    append_pending(line, &thing.pending)?;
    append_word(line, hold_word(thing.held))?;
    line.append(b"\n")
}

/// Adds the line of a lease.
#[tactic(auto, unfolding(crate::specs::Rows::lease_line))]
fn append_lease(
    alloc: Global,
    line: &mut Bytes,
    mac: Mac,
    lease: &(Addr, End),
) -> Result<(), Memory>
    ensures { OnOk result (line.new ≡ line.old ++ spec.lease_line mac lease.now) }
{
    line.append(b"lease ")?;
    append_mac(alloc, line, mac)?;
    append_expiring(alloc, line, lease.0, lease.1)
}

/// Adds the lines of leases, in their order.
fn append_leases(
    alloc: Global,
    lines: &mut Bytes,
    mac: Mac,
    leases: &[(Addr, End)],
) -> Result<(), Memory>
    ensures { OnOk result (lines.new ≡ lines.old ++ flat_map (spec.lease_line mac) leases.now) }
{
    'leases: for lease in leases {
        append_lease(alloc, lines, mac, lease)?;
    }
    Ok(())
}

impl ReportRow for Thing {
    ghost use Rattle.run_reports.specs.Rows.{thing_lines};

    ghost text = { thing_lines };

    #[tactic(auto, unfolding(crate::specs::Rows::thing_lines))]
    fn append_lines(&self, alloc: Global, lines: &mut Bytes) -> Result<(), Memory> {
        append_thing(alloc, lines, self)?;
        append_leases(alloc, lines, self.mac, self.leases.as_slice())
    }
}
