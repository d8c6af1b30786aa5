//! The lines of a tally.
ghost use Rattle.std.specs.Prelude.{◌≡◌, ◌++◌, OnOk, flat_map, codes};
ghost use Rattle.run_packets.specs.Tally.Texts as spec;
ghost use Rattle.mud_base.specs.Texts.{addr_text};
ghost use Rattle.text_values.specs.Numbers.{number_text};

use desk_model::texts::append_ruling;
use drop_ledger::{CountRow, DeniedRow, OtherRow, Totals};
use mud_base::{Bytes, Direction, Mac, Memory};
use std::alloc::Global;
use text_values::{append_addr, append_mac, append_number};

/// The name of a side, behind a space.
#[tactic(auto, unfolding(crate::specs::Tally::Texts::side_name))]
fn side_name(side: Direction) -> &'static [u8]
    ensures { result.now ≡ spec.side_name side }
{
    match side {
        Direction::From => b" from",
        Direction::To => b" to",
    }
}

/// Adds a Thing and its side, each behind a space.
#[tactic(auto, unfolding(crate::specs::Tally::Texts::thing_text))]
fn append_thing(alloc: Global, line: &mut Bytes, mac: Mac, side: Direction) -> Result<(), Memory>
    ensures { OnOk result (line.new ≡ line.old ++ spec.thing_text mac side) }
{
    line.append(b" ")?;
    append_mac(alloc, line, mac)?;
    line.append(side_name(side))
}

/// Adds the line of a count.
#[tactic(auto, unfolding(crate::specs::Tally::Texts::count_line))]
fn append_count(alloc: Global, line: &mut Bytes, row: &CountRow) -> Result<(), Memory>
    ensures { OnOk result (line.new ≡ line.old ++ spec.count_line row.now) }
{
    line.append(b"count")?;
    append_thing(alloc, line, row.mac, row.side)?;
    line.append(b" ")?;
    append_ruling(line, row.ruling)?;
    append_number(line, row.count)?;
    line.append(b"\n")
}

/// Adds a port, or a dash where there is none, behind a space.
#[tactic(auto, unfolding(crate::specs::Tally::Texts::port_text))]
fn append_port(line: &mut Bytes, port: Option<u16>) -> Result<(), Memory>
    ensures { OnOk result (line.new ≡ line.old ++ spec.port_text port) }
{
    match port {
        Some(port) => append_number(line, u64::from(port)),
        None => line.append(b" -"),
    }
}

/// Adds a peer, its protocol and its port, each behind a space.
#[tactic(auto)]
fn append_peer(alloc: Global, line: &mut Bytes, row: &DeniedRow) -> Result<(), Memory>
    ensures { OnOk result (line.new ≡ line.old ++ (codes " " ++ addr_text row.now.peer ++ number_text row.now.protocol ++ spec.port_text row.now.port)) }
{
    line.append(b" ")?;
    append_addr(alloc, line, row.peer)?;
    append_number(line, u64::from(row.protocol))?;
    append_port(line, row.port)
}

/// Adds the line of what was denied of a peer.
#[tactic(auto, unfolding(crate::specs::Tally::Texts::denied_line))]
fn append_denied(alloc: Global, line: &mut Bytes, row: &DeniedRow) -> Result<(), Memory>
    ensures { OnOk result (line.new ≡ line.old ++ spec.denied_line row.now) }
{
    line.append(b"denied")?;
    append_thing(alloc, line, row.mac, row.side)?;
    append_peer(alloc, line, row)?;
    append_number(line, row.count)?;
    line.append(b"\n")
}

/// Adds the line of the others of a Thing and side.
#[tactic(auto, unfolding(crate::specs::Tally::Texts::others_line))]
fn append_other(alloc: Global, line: &mut Bytes, row: &OtherRow) -> Result<(), Memory>
    ensures { OnOk result (line.new ≡ line.old ++ spec.others_line row.now) }
{
    line.append(b"denied")?;
    append_thing(alloc, line, row.mac, row.side)?;
    line.append(b" others")?;
    append_number(line, row.count)?;
    line.append(b"\n")
}

/// Adds a name, and a number behind a space.
#[tactic(auto, unfolding(crate::specs::Tally::Texts::total_text))]
fn append_total(line: &mut Bytes, name: &[u8], number: u64) -> Result<(), Memory>
    ensures { OnOk result (line.new ≡ line.old ++ spec.total_text name.now number) }
{
    line.append(name)?;
    append_number(line, number)
}

/// A name and its number.
#[derive(Clone, Copy)]
struct Total<'a>(&'a [u8], u64);

/// Adds names, each with its number behind it, in their order.
fn append_named(line: &mut Bytes, rows: &[Total]) -> Result<(), Memory>
    ensures { OnOk result (line.new ≡ line.old ++ flat_map (λ row. spec.total_text row.0.now row.1) rows.now) }
{
    'rows: for row in rows {
        append_total(line, row.0, row.1)?;
    }
    Ok(())
}

/// Adds the line of the totals.
#[tactic(auto, unfolding(crate::specs::Tally::Texts::totals_line))]
fn append_totals(line: &mut Bytes, totals: &Totals) -> Result<(), Memory>
    ensures { OnOk result (line.new ≡ line.old ++ spec.totals_line totals.now) }
{
    append_named(
        line,
        &[
            Total(b"packets", totals.packets),
            Total(b" unmanaged", totals.unmanaged),
            Total(b" link", totals.link),
            Total(b" unreadable", totals.unreadable),
            Total(b" pass", totals.pass),
            Total(b" drop", totals.drop),
            Total(b" both", totals.both),
        ],
    )?;
    line.append(b"\n")
}

/// Adds the lines of counts, in their order.
fn append_counts(alloc: Global, lines: &mut Bytes, rows: &[CountRow]) -> Result<(), Memory>
    ensures { OnOk result (lines.new ≡ lines.old ++ flat_map spec.count_line rows.now) }
{
    'rows: for row in rows {
        append_count(alloc, lines, row)?;
    }
    Ok(())
}

/// Adds the lines of what was denied, in their order.
fn append_all_denied(alloc: Global, lines: &mut Bytes, rows: &[DeniedRow]) -> Result<(), Memory>
    ensures { OnOk result (lines.new ≡ lines.old ++ flat_map spec.denied_line rows.now) }
{
    'rows: for row in rows {
        append_denied(alloc, lines, row)?;
    }
    Ok(())
}

/// Adds the lines of the others, in their order.
fn append_others(alloc: Global, lines: &mut Bytes, rows: &[OtherRow]) -> Result<(), Memory>
    ensures { OnOk result (lines.new ≡ lines.old ++ flat_map spec.others_line rows.now) }
{
    'rows: for row in rows {
        append_other(alloc, lines, row)?;
    }
    Ok(())
}

/// Adds the line of an hour and those of the counts in it; nothing where there is no hour.
#[tactic(auto, unfolding(crate::specs::Tally::Texts::hour_lines))]
pub(crate) fn append_hour(
    alloc: Global,
    lines: &mut Bytes,
    hour: Option<u64>,
    counts: &[CountRow],
) -> Result<(), Memory>
    ensures { OnOk result (lines.new ≡ lines.old ++ spec.hour_lines hour counts.now) }
{
    let Some(hour) = hour else {
        return Ok(());
    };
    append_total(lines, b"hour", hour)?;
    lines.append(b"\n")?;
    append_counts(alloc, lines, counts)
}

/// Adds the lines at the end: what was denied, then the others of each Thing and side, then the
/// totals.
#[tactic(auto, unfolding(crate::specs::Tally::Texts::end_lines))]
pub(crate) fn append_end(
    alloc: Global,
    lines: &mut Bytes,
    denied: &[DeniedRow],
    others: &[OtherRow],
    totals: &Totals,
) -> Result<(), Memory>
    ensures { OnOk result (lines.new ≡ lines.old ++ spec.end_lines denied.now others.now totals.now) }
{
    append_all_denied(alloc, lines, denied)?;
    append_others(alloc, lines, others)?;
    append_totals(lines, totals)
}
