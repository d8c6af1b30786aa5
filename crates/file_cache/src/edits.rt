//! What an edit makes of the row of a URL. Files are moved, and none is copied.
ghost use Rattle.std.specs.Prelude.{◌≡◌};
ghost use Rattle.std.specs.Option.{option_map};
ghost use Rattle.usage_tables.specs.FileEdits as spec;

use mud_base::Moment;
use mud_url::MudUrl;
use usage_tables::{Approval, CachedFile, FileEdit, Held};

/// The row, where it holds a file.
#[tactic(auto, unfolding(usage_tables::specs::FileEdits::kept_row, usage_tables::specs::FileEdits::if_any))]
fn kept_row(row: CachedFile) -> Option<CachedFile>
    ensures { result ≡ spec.kept_row row }
{
    match (&row.approved, &row.candidate) {
        (None, None) => {
            drop(row);
            None
        }
        _ => Some(row),
    }
}

/// The candidate, fetched at another moment.
#[tactic(auto, unfolding(usage_tables::specs::FileEdits::fetched_at))]
fn candidate_at(candidate: Option<Held>, moment: Moment) -> Option<Held>
    ensures { result ≡ option_map (spec.fetched_at moment) candidate }
{
    match candidate {
        Some(held) => Some(held.fetched_at(moment)),
        None => None,
    }
}

/// The approved file, fetched at another moment.
#[tactic(auto, unfolding(usage_tables::specs::FileEdits::fetched_at, usage_tables::specs::FileEdits::approved_at))]
fn approved_at(approved: Option<(Held, Approval)>, moment: Moment) -> Option<(Held, Approval)>
    ensures { result ≡ option_map (spec.approved_at moment) approved }
{
    match approved {
        Some((held, approval)) => Some((held.fetched_at(moment), approval)),
        None => None,
    }
}

/// The candidate as the approved file.
#[tactic(auto, unfolding(usage_tables::specs::FileEdits::approved_as))]
fn approved_as(candidate: Option<Held>, approval: Approval) -> Option<(Held, Approval)>
    ensures { result ≡ option_map (spec.approved_as approval) candidate }
{
    match candidate {
        Some(held) => Some((held, approval)),
        None => None,
    }
}

/// The row that comes of a row.
#[tactic(auto, unfolding(usage_tables::specs::FileEdits::changed_row, usage_tables::specs::Files::with_candidate, usage_tables::specs::Files::with_approved))]
fn changed_row(edit: FileEdit, row: CachedFile) -> Option<CachedFile>
    ensures { result ≡ spec.changed_row edit row }
{
    match edit {
        FileEdit::Unchanged => Some(row),
        FileEdit::Offered(held) => Some(CachedFile {
            candidate: Some(held),
            ..row
        }),
        FileEdit::CandidateFetched(moment) => Some(CachedFile {
            candidate: candidate_at(row.candidate, moment),
            ..row
        }),
        FileEdit::ApprovedFetched(moment) => Some(CachedFile {
            approved: approved_at(row.approved, moment),
            ..row
        }),
        FileEdit::Approved(approval) => kept_row(CachedFile {
            approved: approved_as(row.candidate, approval),
            candidate: None,
            ..row
        }),
        FileEdit::Rejected => kept_row(CachedFile {
            candidate: None,
            ..row
        }),
        FileEdit::Revoked => kept_row(CachedFile {
            approved: None,
            ..row
        }),
    }
}

/// The row of a URL of which nothing was held.
#[tactic(auto, unfolding(usage_tables::specs::FileEdits::made_row, usage_tables::specs::Files::new_file))]
fn made_row(edit: FileEdit, url: MudUrl) -> Option<CachedFile>
    ensures { result ≡ spec.made_row edit url }
{
    match edit {
        FileEdit::Offered(held) => Some(CachedFile {
            url,
            approved: None,
            candidate: Some(held),
        }),
        _ => None,
    }
}

/// The row of a URL after an edit.
#[tactic(auto, unfolding(usage_tables::specs::FileEdits::edited_row))]
pub(crate) fn edited_row(
    edit: FileEdit,
    url: MudUrl,
    found: Option<CachedFile>,
) -> Option<CachedFile>
    ensures { result ≡ spec.edited_row edit url found }
{
    match found {
        Some(row) => changed_row(edit, row),
        None => made_row(edit, url),
    }
}
