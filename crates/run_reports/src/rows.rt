//! Rows written one after the other: the lines of each are written as soon as they are made.
ghost use Rattle.std.specs.Prelude.{◌≡◌, IfOk, OnOk, OnErr, flat_map, IsTrue};
ghost use Rattle.mud_world.specs.Causes.{Counts};
ghost use Rattle.mud_world.specs.Door.{put_out};
ghost use Rattle.run_common.specs.Ends.{IsStoppedWriting};
ghost use Rattle.run_common.specs.Output.{WroteFirst};
ghost use Rattle.run_common.specs.Stops.{has_failed};
ghost use Rattle.run_reports.specs.Tables.{due_part};

use crate::files::append_due;
use crate::row::ReportRow;
use file_cache::is_due;
use mud_base::{Bytes, Memory, Moment};
use mud_world::Door;
use run_common::{Stop, write_text};
use std::alloc::Global;
use usage_tables::CachedFile;

/// Writes the lines of a row.
fn write_row<D: Door, R: ReportRow>(alloc: Global, door: &mut D, row: &R) -> Result<(), Stop>
    ensures ok { D.tells → OnOk result ((D.view door.new).state ≡ put_out (R.text row.now) (D.view door.old).state) }
    ensures part { D.tells → OnErr result (WroteFirst (R.text row.now) (D.view door.old).state (D.view door.new).state) }
    ensures cause { Counts (has_failed result) (D.view door.old).writes (D.view door.new).writes }
    ensures stop { IsTrue (has_failed result) → IsStoppedWriting (D.view door.old) (D.view door.new) }
    ensures turns { (D.view door.new).turns ≡ (D.view door.old).turns }
    ensures reads { (D.view door.new).reads ≡ (D.view door.old).reads }
{
    let mut lines = Bytes::empty(alloc);
    row.append_lines(alloc, &mut lines)?;
    write_text(door, lines.octets())
}

/// Writes the lines of rows, in their order.
pub(crate) fn write_rows<D: Door, R: ReportRow>(
    alloc: Global,
    door: &mut D,
    rows: &[R],
) -> Result<(), Stop>
    ensures ok { D.tells → OnOk result ((D.view door.new).state ≡ put_out (flat_map R.text rows.now) (D.view door.old).state) }
    ensures part { D.tells → OnErr result (WroteFirst (flat_map R.text rows.now) (D.view door.old).state (D.view door.new).state) }
    ensures cause { Counts (has_failed result) (D.view door.old).writes (D.view door.new).writes }
    ensures stop { IsTrue (has_failed result) → IsStoppedWriting (D.view door.old) (D.view door.new) }
    ensures turns { (D.view door.new).turns ≡ (D.view door.old).turns }
    ensures reads { (D.view door.new).reads ≡ (D.view door.old).reads }
{
    'rows: for row in rows {
        write_row(alloc, door, row)?;
    }
    Ok(())
}

/// The line of a URL, where its file is to be fetched again; else no octets.
#[tactic(auto, unfolding(crate::specs::Tables::due_part))]
fn due_line(alloc: Global, row: &CachedFile, now: Moment) -> Result<Bytes, Memory>
    ensures { IfOk result (λ line. line ≡ due_part now row.now) }
{
    let mut line = Bytes::empty(alloc);
    if is_due(row, now) {
        append_due(&mut line, &row.url)?;
    }
    Ok(line)
}

/// Writes the line of a URL, where its file is to be fetched again.
fn write_due_row<D: Door>(
    alloc: Global,
    door: &mut D,
    row: &CachedFile,
    now: Moment,
) -> Result<(), Stop>
    ensures ok { D.tells → OnOk result ((D.view door.new).state ≡ put_out (due_part now row.now) (D.view door.old).state) }
    ensures part { D.tells → OnErr result (WroteFirst (due_part now row.now) (D.view door.old).state (D.view door.new).state) }
    ensures cause { Counts (has_failed result) (D.view door.old).writes (D.view door.new).writes }
    ensures stop { IsTrue (has_failed result) → IsStoppedWriting (D.view door.old) (D.view door.new) }
    ensures turns { (D.view door.new).turns ≡ (D.view door.old).turns }
    ensures reads { (D.view door.new).reads ≡ (D.view door.old).reads }
{
    let line = due_line(alloc, row, now)?;
    write_text(door, line.octets())
}

/// Writes the lines of the URLs whose file is to be fetched again at a moment, in their order.
pub(crate) fn write_due<D: Door>(
    alloc: Global,
    door: &mut D,
    files: &[CachedFile],
    now: Moment,
) -> Result<(), Stop>
    ensures ok { D.tells → OnOk result ((D.view door.new).state ≡ put_out (flat_map (due_part now) files.now) (D.view door.old).state) }
    ensures part { D.tells → OnErr result (WroteFirst (flat_map (due_part now) files.now) (D.view door.old).state (D.view door.new).state) }
    ensures cause { Counts (has_failed result) (D.view door.old).writes (D.view door.new).writes }
    ensures stop { IsTrue (has_failed result) → IsStoppedWriting (D.view door.old) (D.view door.new) }
    ensures turns { (D.view door.new).turns ≡ (D.view door.old).turns }
    ensures reads { (D.view door.new).reads ≡ (D.view door.old).reads }
{
    'rows: for row in files {
        write_due_row(alloc, door, row, now)?;
    }
    Ok(())
}
