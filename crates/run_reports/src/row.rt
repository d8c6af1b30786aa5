//! Rows of the tables, and words of their lines.
ghost use Rattle.std.specs.Prelude.{◌≡◌, ◌++◌, OnOk};
ghost use Rattle.run_reports.specs.Rows as spec;

use mud_base::{Addr, Bytes, End, Memory};
use std::alloc::Global;
use text_values::{append_addr, append_expiry};

/// A row of a table.
pub trait ReportRow {
    ghost use Rattle.std.specs.Prelude.{◌≡◌, ◌++◌, ℕ, List, OnOk};

    /// Its lines, each with a line feed at its end.
    ghost text: { Self → List ℕ };

    /// Adds its lines.
    fn append_lines(&self, alloc: Global, lines: &mut Bytes) -> Result<(), Memory>
        ensures { OnOk result (lines.new ≡ lines.old ++ text self.now) };
}

/// Adds a space and the word.
#[tactic(auto, unfolding(crate::specs::Rows::word_part))]
pub(crate) fn append_word(line: &mut Bytes, word: &[u8]) -> Result<(), Memory>
    ensures { OnOk result (line.new ≡ line.old ++ spec.word_part word.now) }
{
    line.append(b" ")?;
    line.append(word)
}

/// Adds an address and its expiry, as the last words of a line.
#[tactic(auto, unfolding(crate::specs::Rows::expiring_part))]
pub(crate) fn append_expiring(
    alloc: Global,
    line: &mut Bytes,
    address: Addr,
    expiry: End,
) -> Result<(), Memory>
    ensures { OnOk result (line.new ≡ line.old ++ spec.expiring_part address expiry) }
{
    line.append(b" ")?;
    append_addr(alloc, line, address)?;
    line.append(b" ")?;
    append_expiry(line, expiry)?;
    line.append(b"\n")
}
