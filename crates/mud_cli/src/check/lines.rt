//! The lines of `check`. Each ends with a line feed.
ghost use Rattle.std.specs.Prelude.{◌≡◌, ◌++◌, IfOk, OnOk, codes, if◌then◌else◌};
ghost use Rattle.mud_cli.specs.Check.Lines as spec;
ghost use Rattle.acl_model.specs.Keys.{is_membered};

use acl_model::{Action, Entry};
use mud_base::{Bytes, Direction, Family, Memory};
use mud_file::UsageFile;
use std::alloc::Global;
use text_values::{
    append_decimal, append_number, append_path_part, append_signed, append_url, append_url_part,
};
use usage_walk::Broken;

/// The side that an entry is for.
#[tactic(auto, unfolding(crate::specs::Check::Lines::side_word))]
fn side_word(side: Direction) -> &'static str
    ensures { result.now ≡ spec.side_word side }
{
    match side {
        Direction::From => "from",
        Direction::To => "to",
    }
}

/// The IP versions that an entry is for.
#[tactic(auto, unfolding(crate::specs::Check::Lines::family_word))]
fn family_word(family: Family) -> &'static str
    ensures { result.now ≡ spec.family_word family }
{
    match family {
        Family::V4 => " v4",
        Family::V6 => " v6",
        Family::Both => " both",
    }
}

/// Whether an entry has a member selector.
#[tactic(auto)]
fn reach_word(entry: &Entry) -> &'static str
    ensures { result.now ≡ if is_membered entry.now then codes " member" else codes " wide" }
{
    if entry.is_membered() {
        " member"
    } else {
        " wide"
    }
}

/// What becomes of a packet that an entry matches.
#[tactic(auto, unfolding(crate::specs::Check::Lines::action_word))]
fn action_word(action: Action) -> &'static str
    ensures { result.now ≡ spec.action_word action }
{
    match action {
        Action::Accept => " accept",
        Action::Drop => " drop",
    }
}

/// Adds the line of an entry: its side, its number, its IP version, its reach and its action.
#[tactic(auto, unfolding(crate::specs::Check::Lines::entry_line))]
fn append_entry(
    lines: &mut Bytes,
    side: Direction,
    number: u64,
    entry: &Entry,
) -> Result<(), Memory>
    ensures { OnOk result (lines.new ≡ lines.old ++ spec.entry_line side number entry.now) }
{
    lines.append(side_word(side).as_bytes())?;
    append_number(lines, number)?;
    lines.append(family_word(entry.family).as_bytes())?;
    lines.append(reach_word(entry).as_bytes())?;
    lines.append(action_word(entry.action).as_bytes())?;
    lines.append(b"\n")
}

/// Adds the lines of the entries of a side, which are numbered from 1.
fn append_entries(lines: &mut Bytes, side: Direction, entries: &[Entry]) -> Result<(), Memory>
    ensures { OnOk result (lines.new ≡ lines.old ++ spec.entry_lines side 1 entries.now) }
{
    'entries: for (index, entry) in entries.iter().enumerate() {
        append_entry(lines, side, index as u64 + 1, entry)?;
    }
    Ok(())
}

/// Adds the file's own URL, when it was generated, and for how many hours it holds.
#[tactic(auto, unfolding(crate::specs::Check::Lines::head_lines))]
fn append_head(lines: &mut Bytes, file: &UsageFile) -> Result<(), Memory>
    ensures { OnOk result (lines.new ≡ lines.old ++ spec.head_lines file.now) }
{
    lines.append(b"file ")?;
    append_url(lines, &file.url)?;
    lines.append(b"\nupdate ")?;
    append_signed(lines, file.update)?;
    lines.append(b"\nhours ")?;
    append_decimal(lines, u64::from(file.hours))?;
    lines.append(b"\n")
}

/// The lines of a usage file: what it is, and its entries, those for what the Thing sends first.
#[tactic(auto, unfolding(crate::specs::Check::Lines::file_lines))]
pub(crate) fn file_lines(alloc: Global, file: &UsageFile) -> Result<Bytes, Memory>
    ensures { IfOk result (λ lines. lines ≡ spec.file_lines file.now) }
{
    let mut lines = Bytes::empty(alloc);
    append_head(&mut lines, file)?;
    append_entries(&mut lines, Direction::From, file.policy.outgoing.as_slice())?;
    append_entries(&mut lines, Direction::To, file.policy.incoming.as_slice())?;
    Ok(lines)
}

/// The line of a refused usage file: `fault`, the rule's name, its path where it isn't empty, and
/// the URL's own fault where that is the rule.
#[tactic(auto, unfolding(crate::specs::Check::Lines::broken_line))]
pub(crate) fn broken_line(alloc: Global, broken: &Broken) -> Result<Bytes, Memory>
    ensures { IfOk result (λ line. line ≡ spec.broken_line broken.now) }
{
    let mut line = Bytes::new(alloc, b"fault ")?;
    line.append(broken.rule.name().as_bytes())?;
    append_path_part(alloc, &mut line, broken.path.octets())?;
    append_url_part(&mut line, broken.url)?;
    line.append(b"\n")?;
    Ok(line)
}
