//! Usage files that are held, and URLs whose file is to be fetched again.
ghost use Rattle.std.specs.Prelude.{◌≡◌, ◌++◌, OnOk};
ghost use Rattle.run_reports.specs.Rows as spec;

use crate::row::{ReportRow, append_word};
use mud_base::{Bytes, Memory};
use mud_url::MudUrl;
use std::alloc::Global;
use text_values::append_url;
use usage_tables::{Approval, CachedFile, Held};

/// The word for how the approved file of a URL was approved, where there is one.
#[tactic(auto, unfolding(crate::specs::Rows::approved_word))]
fn approved_word(approved: &Option<(Held, Approval)>) -> &'static [u8]
    ensures { result.now ≡ spec.approved_word approved.now }
{
    match approved {
        Some((_, approval)) => approval.word(),
        None => b"-",
    }
}

/// The word for whether a file waits for the operator's verdict.
#[tactic(auto, unfolding(crate::specs::Rows::candidate_word))]
fn candidate_word(candidate: &Option<Held>) -> &'static [u8]
    ensures { result.now ≡ spec.candidate_word candidate.now }
{
    match candidate {
        Some(_) => b"yes",
        None => b"no",
    }
}

impl ReportRow for CachedFile {
    ghost use Rattle.run_reports.specs.Rows.{file_line};

    ghost text = { file_line };

    #[tactic(auto, unfolding(crate::specs::Rows::file_line))]
    fn append_lines(&self, _alloc: Global, lines: &mut Bytes) -> Result<(), Memory> {
        lines.append(b"file ")?;
        append_url(lines, &self.url)?;
        append_word(lines, approved_word(&self.approved))?;
        append_word(lines, candidate_word(&self.candidate))?;
        lines.append(b"\n")
    }
}

/// Adds the line of a URL whose file is to be fetched again.
#[tactic(auto, unfolding(crate::specs::Rows::due_line))]
pub(crate) fn append_due(line: &mut Bytes, url: &MudUrl) -> Result<(), Memory>
    ensures { OnOk result (line.new ≡ line.old ++ spec.due_line url.now) }
{
    line.append(b"due ")?;
    append_url(line, url)?;
    line.append(b"\n")
}
