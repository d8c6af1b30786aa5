//! What the operator's word on a URL's files changes: a verdict on the candidate, or that the approval
//! is taken back.
ghost use Rattle.std.specs.Prelude.{◌≡◌, List, Some};
ghost use Rattle.usage_tables.specs.declared.approval.OperatorVerdict.TheVariants as verdict;
ghost use Rattle.usage_tables.specs.declared.cached_file.CachedFile.{CachedFile as Row};
ghost use Rattle.usage_tables.specs.Files as files_spec;
ghost use Rattle.usage_tables.specs.Files.{url_of, file_at, IsSoundFiles};
ghost use Rattle.usage_tables.specs.FileCommands as step;
ghost use Rattle.file_cache.specs.Planned.{Makes};

use crate::change::CacheChange;
use crate::items::{Lent, approved_of, candidate_of, item_of};
use base_rows::SortedRows;
use item_codec::Word;
use mud_url::MudUrl;
use std::alloc::Global;
use usage_tables::entries::entries_with;
use usage_tables::limits::MOST_POLICY_ENTRIES;
use usage_tables::{Approval, CacheFault, CachedFile, FileEdit, Held, OperatorVerdict};

/// Whether a file has a `mud-signature` (RFC 8520, 13).
#[tactic(auto, unfolding(usage_tables::specs::Files::is_signed))]
pub(crate) fn is_signed(held: &Held) -> bool
    ensures { result ≡ files_spec.is_signed held.now }
{
    held.file().signature.is_some()
}

/// The candidate becomes the approved file.
fn approve(
    alloc: Global,
    files: &SortedRows<CachedFile>,
    row: &CachedFile,
    candidate: &Held,
    approval: Approval,
) -> Result<CacheChange, CacheFault>
    requires sound { IsSoundFiles files.now.rows }
    requires found { file_at row.now.url files.now.rows ≡ Some row.now }
    requires candidate { row.now.candidate ≡ Some candidate.now }
    ensures { Makes (step.approve row.now.url files.now.rows row.now candidate.now approval) files.now.rows result }
{
    if entries_with(files.rows(), row, candidate) > MOST_POLICY_ENTRIES {
        return Err(CacheFault::PolicyFull);
    }
    let approved = Some((Lent::of(candidate), approval));
    let item = item_of(alloc, &row.url, approved, None)?;
    let edit = FileEdit::Approved(approval);
    let change = CacheChange::set(alloc, Word::Approved, row.url, edit, item)?;
    Ok(change)
}

/// The candidate is turned down.
fn reject(alloc: Global, row: &CachedFile, candidate: &Held) -> Result<CacheChange, CacheFault>
    requires { row.now.candidate ≡ Some candidate.now }
    ensures { (files : List Row) → file_at row.now.url files ≡ Some row.now → Makes (step.ruled row.now.url files row.now candidate.now verdict.Failed) files result }
{
    match &row.approved {
        Some(_) => {
            let item = item_of(alloc, &row.url, approved_of(row), None)?;
            let edit = FileEdit::Rejected;
            let change = CacheChange::set(alloc, Word::Rejected, row.url, edit, item)?;
            Ok(change)
        }
        None => {
            let change = CacheChange::gone(alloc, Word::Rejected, row.url, FileEdit::Rejected)?;
            Ok(change)
        }
    }
}

/// A verdict on the candidate of this digest.
fn rule(
    alloc: Global,
    files: &SortedRows<CachedFile>,
    row: &CachedFile,
    candidate: &Held,
    verdict: OperatorVerdict,
) -> Result<CacheChange, CacheFault>
    requires sound { IsSoundFiles files.now.rows }
    requires found { file_at row.now.url files.now.rows ≡ Some row.now }
    requires candidate { row.now.candidate ≡ Some candidate.now }
    ensures { Makes (step.ruled row.now.url files.now.rows row.now candidate.now verdict) files.now.rows result }
{
    match verdict {
        OperatorVerdict::Verified => {
            if is_signed(candidate) {
                approve(alloc, files, row, candidate, Approval::Verified)
            } else {
                Err(CacheFault::NoSignature)
            }
        }
        OperatorVerdict::Waived => approve(alloc, files, row, candidate, Approval::Waived),
        OperatorVerdict::Failed => reject(alloc, row, candidate),
    }
}

/// Whether a verdict gives this approval.
#[tactic(auto, unfolding(usage_tables::specs::FileCommands::is_verdict))]
fn is_verdict(verdict: OperatorVerdict, approval: Approval) -> bool
    ensures { result ≡ step.is_verdict verdict approval }
{
    match (verdict, approval) {
        (OperatorVerdict::Verified, Approval::Verified) => true,
        (OperatorVerdict::Waived, Approval::Waived) => true,
        _ => false,
    }
}

/// Whether the approved file has this digest and this approval already.
#[tactic(auto, unfolding(usage_tables::specs::FileCommands::is_ruled))]
fn is_ruled(row: &CachedFile, digest: &[u8], verdict: OperatorVerdict) -> bool
    ensures { result ≡ step.is_ruled digest.now verdict row.now.approved }
{
    match &row.approved {
        Some((held, approval)) => held.digest() == digest && is_verdict(verdict, *approval),
        None => false,
    }
}

/// The verdict on the candidate of a URL, where it has one of this digest.
fn judge_candidate(
    alloc: Global,
    files: &SortedRows<CachedFile>,
    row: &CachedFile,
    digest: &[u8],
    verdict: OperatorVerdict,
) -> Result<CacheChange, CacheFault>
    requires sound { IsSoundFiles files.now.rows }
    requires found { file_at row.now.url files.now.rows ≡ Some row.now }
    ensures { Makes (step.candidate_cases row.now.url digest.now verdict files.now.rows row.now row.now.candidate) files.now.rows result }
{
    match &row.candidate {
        Some(candidate) => {
            if candidate.digest() == digest {
                rule(alloc, files, row, candidate, verdict)
            } else {
                Err(CacheFault::Digest)
            }
        }
        None => Err(CacheFault::NoCandidate),
    }
}

/// The verdict on what is held of a URL.
fn judge_row(
    alloc: Global,
    files: &SortedRows<CachedFile>,
    row: &CachedFile,
    digest: &[u8],
    verdict: OperatorVerdict,
) -> Result<CacheChange, CacheFault>
    requires sound { IsSoundFiles files.now.rows }
    requires found { file_at row.now.url files.now.rows ≡ Some row.now }
    ensures { Makes (step.verdict_cases row.now.url digest.now verdict files.now.rows (Some row.now)) files.now.rows result }
{
    if is_ruled(row, digest, verdict) {
        Ok(CacheChange::none(alloc, row.url))
    } else {
        judge_candidate(alloc, files, row, digest, verdict)
    }
}

/// What a verdict on the candidate of a URL with this digest changes.
pub fn judge(
    alloc: Global,
    files: &SortedRows<CachedFile>,
    url: &MudUrl,
    digest: &[u8],
    verdict: OperatorVerdict,
) -> Result<CacheChange, CacheFault>
    requires { IsSoundFiles files.now.rows }
    ensures { Makes (step.verdict_step url.now digest.now verdict files.now.rows) files.now.rows result }
{
    match files.get(url) {
        Some(row) => judge_row(alloc, files, row, digest, verdict),
        None => Err(CacheFault::NoCandidate),
    }
}

/// The approved file of a row goes.
fn revoke_row(alloc: Global, row: &CachedFile) -> Result<CacheChange, CacheFault>
    ensures { (files : List Row) → file_at row.now.url files ≡ Some row.now → Makes (step.approved_cases row.now.url files row.now row.now.approved) files result }
{
    match (&row.approved, &row.candidate) {
        (None, _) => Err(CacheFault::NotApproved),
        (Some(_), Some(_)) => {
            let item = item_of(alloc, &row.url, None, candidate_of(row))?;
            let edit = FileEdit::Revoked;
            let change = CacheChange::set(alloc, Word::Revoked, row.url, edit, item)?;
            Ok(change)
        }
        (Some(_), None) => {
            let change = CacheChange::gone(alloc, Word::Revoked, row.url, FileEdit::Revoked)?;
            Ok(change)
        }
    }
}

/// What taking back the approval of a URL's file changes.
pub(crate) fn revoke(
    alloc: Global,
    files: &SortedRows<CachedFile>,
    url: &MudUrl,
) -> Result<CacheChange, CacheFault>
    ensures { Makes (step.revoke_step url.now files.now.rows) files.now.rows result }
{
    match files.get(url) {
        Some(row) => revoke_row(alloc, row),
        None => Err(CacheFault::NotApproved),
    }
}
