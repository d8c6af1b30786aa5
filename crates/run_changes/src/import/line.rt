//! The line of a file of a folder. It ends with a line feed.
ghost use Rattle.std.specs.Prelude.{◌≡◌, ◌++◌, OnOk, Some, None};
ghost use Rattle.run_changes.specs.Import.Entries.{line_with};

use desk_model::Reply;
use desk_model::texts::append_reply_words;
use mud_base::{Bytes, Memory};
use std::alloc::Global;

/// Adds the line of a file that was imported, or refused: its name, and the word of what was done,
/// `refused` with the number and the name of the rule and the path in the file, `keeper`, or
/// `memory`.
#[tactic(auto, unfolding(crate::specs::Import::Entries::line_with))]
pub(crate) fn append_reply(
    alloc: Global,
    lines: &mut Bytes,
    name: &[u8],
    reply: &Reply,
) -> Result<(), Memory>
    ensures { OnOk result (lines.new ≡ lines.old ++ (line_with name.now (Some reply.now))) }
{
    lines.append(name)?;
    append_reply_words(alloc, lines, reply)?;
    lines.append(b"\n")
}

/// Adds the line of a file whose name has another form than those that are imported.
#[tactic(auto, unfolding(crate::specs::Import::Entries::line_with))]
pub(crate) fn append_skipped(lines: &mut Bytes, name: &[u8]) -> Result<(), Memory>
    ensures { OnOk result (lines.new ≡ lines.old ++ (line_with name.now None)) }
{
    lines.append(name)?;
    lines.append(b" skipped\n")
}
