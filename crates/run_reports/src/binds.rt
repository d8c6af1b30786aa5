//! Classes, local networks and names.
ghost use Rattle.std.specs.Prelude.{◌≡◌, ◌++◌, OnOk, flat_map};
ghost use Rattle.run_reports.specs.Rows as spec;

use crate::row::{ReportRow, append_expiring};
use mud_base::{Addr, Bytes, End, Memory, Prefix};
use std::alloc::Global;
use table_model::{Class, ClassRow, NameRow};
use text_values::{append_addr, append_prefix, append_url};

/// Adds the words that name a class.
#[tactic(auto, unfolding(crate::specs::Rows::class_part))]
fn append_class(line: &mut Bytes, class: &Class) -> Result<(), Memory>
    ensures { OnOk result (line.new ≡ line.old ++ spec.class_part class.now) }
{
    match class {
        Class::Uri(uri) => {
            line.append(b"class uri ")?;
            line.append(uri.octets())
        }
        Class::Mine(url) => {
            line.append(b"class mine ")?;
            append_url(line, url)
        }
    }
}

/// Adds the line of an address of a class.
#[tactic(auto, unfolding(crate::specs::Rows::class_line))]
fn append_member(
    alloc: Global,
    line: &mut Bytes,
    class: &Class,
    address: Addr,
) -> Result<(), Memory>
    ensures { OnOk result (line.new ≡ line.old ++ spec.class_line class.now address) }
{
    append_class(line, class)?;
    line.append(b" ")?;
    append_addr(alloc, line, address)?;
    line.append(b"\n")
}

/// Adds the lines of the addresses of a class, in their order.
fn append_members(
    alloc: Global,
    lines: &mut Bytes,
    class: &Class,
    addresses: &[Addr],
) -> Result<(), Memory>
    ensures { OnOk result (lines.new ≡ lines.old ++ flat_map (spec.class_line class.now) addresses.now) }
{
    'addresses: for address in addresses {
        append_member(alloc, lines, class, *address)?;
    }
    Ok(())
}

impl ReportRow for ClassRow {
    ghost use Rattle.run_reports.specs.Rows.{class_lines};

    ghost text = { class_lines };

    #[tactic(auto, unfolding(crate::specs::Rows::class_lines))]
    fn append_lines(&self, alloc: Global, lines: &mut Bytes) -> Result<(), Memory> {
        append_members(alloc, lines, &self.class, self.addrs.as_slice())
    }
}

impl ReportRow for Prefix {
    ghost use Rattle.run_reports.specs.Rows.{local_line};

    ghost text = { local_line };

    #[tactic(auto, unfolding(crate::specs::Rows::local_line))]
    fn append_lines(&self, alloc: Global, lines: &mut Bytes) -> Result<(), Memory> {
        lines.append(b"local ")?;
        append_prefix(alloc, lines, *self)?;
        lines.append(b"\n")
    }
}

/// Adds the line of an address of a name.
#[tactic(auto, unfolding(crate::specs::Rows::name_line))]
fn append_observed(
    alloc: Global,
    line: &mut Bytes,
    name: &[u8],
    observed: &(Addr, End),
) -> Result<(), Memory>
    ensures { OnOk result (line.new ≡ line.old ++ spec.name_line name.now observed.now) }
{
    line.append(b"name ")?;
    line.append(name)?;
    append_expiring(alloc, line, observed.0, observed.1)
}

/// Adds the lines of the addresses of a name, in their order.
fn append_addresses(
    alloc: Global,
    lines: &mut Bytes,
    name: &[u8],
    addresses: &[(Addr, End)],
) -> Result<(), Memory>
    ensures { OnOk result (lines.new ≡ lines.old ++ flat_map (spec.name_line name.now) addresses.now) }
{
    'addresses: for observed in addresses {
        append_observed(alloc, lines, name, observed)?;
    }
    Ok(())
}

impl ReportRow for NameRow {
    ghost use Rattle.run_reports.specs.Rows.{name_lines};

    ghost text = { name_lines };

    #[tactic(auto, unfolding(crate::specs::Rows::name_lines))]
    fn append_lines(&self, alloc: Global, lines: &mut Bytes) -> Result<(), Memory> {
        append_addresses(alloc, lines, self.name.octets(), self.addrs.as_slice())
    }
}
