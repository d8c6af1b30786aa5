//! How many entries files have.
ghost use Rattle.std.specs.Prelude.{◌≡◌, ◌≤◌, ◌+◌, Some};
ghost use Rattle.usage_tables.specs.declared.approval.Approval.{Approval as ApprovalValue};
ghost use Rattle.usage_tables.specs.Limits.{most_policy_entries};
ghost use Rattle.usage_tables.specs.Files as spec;
ghost use Rattle.usage_tables.specs.Files.{file_at, set_file, IsSoundFiles};
ghost use Rattle.usage_tables.specs.FileCommands.{approved_row};

use crate::cached_file::CachedFile;
use crate::held::Held;

/// How many entries a file has, of both directions: at most 256.
#[tactic(auto, unfolding(crate::specs::Files::entries_of), using(crate::proofs::EntryBounds::few_outgoing, crate::proofs::EntryBounds::few_incoming))]
pub fn entries_of(held: &Held) -> usize
    ensures value { result ≡ spec.entries_of held.now }
    ensures few { result ≤ 256 }
{
    let policy = &held.file().policy;
    policy.outgoing.len() + policy.incoming.len()
}

/// How many entries the approved file of a URL has, where there is one.
#[tactic(auto, unfolding(crate::specs::Files::approved_entries))]
pub fn approved_entries(row: &CachedFile) -> usize
    ensures value { result ≡ spec.approved_entries row.now.approved }
    ensures few { result ≤ 256 }
{
    match &row.approved {
        Some((held, _)) => entries_of(held),
        None => 0,
    }
}

/// How many entries all approved files have.
#[tactic(auto, using(crate::proofs::EntryBounds::entries_first, crate::proofs::EntryBounds::entries_end))]
pub fn entry_count(files: &[CachedFile]) -> usize
    requires { spec.entry_count files.now ≤ most_policy_entries }
    ensures { result ≡ spec.entry_count files.now }
{
    let mut count = 0;
    for row in files {
        count += approved_entries(row);
    }
    count
}

/// How many entries all approved files have once the candidate of a row is its approved file.
pub fn entries_with(files: &[CachedFile], row: &CachedFile, candidate: &Held) -> usize
    requires sound { IsSoundFiles files.now }
    requires found { file_at row.now.url files.now ≡ Some row.now }
    ensures { (approval : ApprovalValue) → result ≡ spec.entry_count (set_file (approved_row row.now candidate.now approval) files.now) }
{
    entry_count(files) - approved_entries(row) + entries_of(candidate)
}
