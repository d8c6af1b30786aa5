//! What the import of a usage file changes.
ghost use Rattle.std.specs.Prelude.{◌≡◌, List, Some, None, Ok, IfOk, IfErr, ◌||◌};
ghost use Rattle.base_rows.specs.Sortable.{SortKeysAscend};
ghost use Rattle.mud_file.specs.File.{file_of};
ghost use Rattle.usage_tables.specs.declared.cached_file.CachedFile.{CachedFile as Row};
ghost use Rattle.usage_tables.specs.Held.{held_file};
ghost use Rattle.usage_tables.specs.Files as files_spec;
ghost use Rattle.usage_tables.specs.Files.{url_of, file_at};
ghost use Rattle.usage_tables.specs.FileCommands as step;
ghost use Rattle.file_cache.specs.Planned.{Makes, IsUnread};

use crate::change::CacheChange;
use crate::items::{Lent, approved_of, candidate_of, item_of};
use base_rows::SortedRows;
use item_codec::Word;
use mud_base::{Bytes, Moment};
use mud_file::{FileFault, UsageFile, read_usage};
use std::alloc::Global;
use usage_tables::limits::MOST_FILES;
use usage_tables::{Approval, CacheFault, CachedFile, FileEdit, Held};

/// The usage file that octets are.
fn read_file(alloc: Global, octets: &[u8]) -> Result<UsageFile, CacheFault>
    ensures ok { IfOk result (λ file. file_of octets.now ≡ Ok file) }
    ensures err { IfErr result (IsUnread (file_of octets.now)) }
{
    match read_usage(alloc, octets) {
        Ok(file) => Ok(file),
        Err(FileFault::Memory) => Err(CacheFault::Memory),
        Err(FileFault::Broken(broken)) => Err(CacheFault::File(broken)),
    }
}

/// Whether a file was generated before a held one, by the `last-update` of both (RFC 8520, 3.4).
#[tactic(auto, unfolding(usage_tables::specs::Files::is_older))]
pub(crate) fn is_older(file: &UsageFile, held: &Held) -> bool
    ensures { result ≡ files_spec.is_older file.now held.now }
{
    file.update < held.file().update
}

/// Whether a file was generated before the approved one.
fn older_than_approved(file: &UsageFile, row: &CachedFile) -> bool
    ensures { result ≡ step.older_than_approved file.now row.now.approved }
{
    match &row.approved {
        Some((held, _)) => is_older(file, held),
        None => false,
    }
}

/// Whether a file was generated before the candidate.
fn older_than_candidate(file: &UsageFile, row: &CachedFile) -> bool
    ensures { result ≡ step.older_than_candidate file.now row.now.candidate }
{
    match &row.candidate {
        Some(held) => is_older(file, held),
        None => false,
    }
}

/// Whether a file was generated before one of the held ones.
#[tactic(auto)]
fn is_outdated_by(row: &CachedFile, file: &UsageFile) -> bool
    ensures { result ≡ step.older_than_approved file.now row.now.approved || step.older_than_candidate file.now row.now.candidate }
{
    older_than_approved(file, row) || older_than_candidate(file, row)
}

/// The candidate's octets again: it counts as fetched at the later of both moments.
fn candidate_again(
    alloc: Global,
    row: &CachedFile,
    candidate: &Held,
    fetched: Moment,
) -> Result<CacheChange, CacheFault>
    requires { row.now.candidate ≡ Some candidate.now }
    ensures { (files : List Row) → SortKeysAscend url_of files → file_at row.now.url files ≡ Some row.now → Makes (step.candidate_again fetched row.now.url files row.now candidate.now) files result }
{
    if candidate.fetched().seconds() < fetched.seconds() {
        let again = Lent::fetched_at(candidate, fetched);
        let item = item_of(alloc, &row.url, approved_of(row), Some(again))?;
        let edit = FileEdit::CandidateFetched(fetched);
        let change = CacheChange::set(alloc, Word::Same, row.url, edit, item)?;
        Ok(change)
    } else {
        Ok(CacheChange::none(alloc, row.url))
    }
}

/// The approved file's octets again: it counts as fetched at the later of both moments.
fn approved_again(
    alloc: Global,
    row: &CachedFile,
    approved: &Held,
    approval: Approval,
    fetched: Moment,
) -> Result<CacheChange, CacheFault>
    requires { row.now.approved ≡ Some (approved.now, approval) }
    ensures { (files : List Row) → SortKeysAscend url_of files → file_at row.now.url files ≡ Some row.now → Makes (step.approved_again fetched row.now.url files row.now (approved.now, approval)) files result }
{
    if approved.fetched().seconds() < fetched.seconds() {
        let again = Lent::fetched_at(approved, fetched);
        let item = item_of(alloc, &row.url, Some((again, approval)), candidate_of(row))?;
        let edit = FileEdit::ApprovedFetched(fetched);
        let change = CacheChange::set(alloc, Word::Same, row.url, edit, item)?;
        Ok(change)
    } else {
        Ok(CacheChange::none(alloc, row.url))
    }
}

/// Octets that aren't held become the candidate of a URL of which a file is held.
fn new_candidate(
    alloc: Global,
    row: &CachedFile,
    octets: &[u8],
    fetched: Moment,
    file: UsageFile,
) -> Result<CacheChange, CacheFault>
    requires read { file_of octets.now ≡ Ok file }
    requires own { file.url ≡ row.now.url }
    ensures { (files : List Row) → SortKeysAscend url_of files → file_at row.now.url files ≡ Some row.now → Makes (step.new_candidate (held_file octets.now fetched) file files row.now) files result }
{
    if is_outdated_by(row, &file) {
        drop(file);
        return Err(CacheFault::Older);
    }
    let Ok(copy) = Bytes::new(alloc, octets) else {
        drop(file);
        return Err(CacheFault::Memory);
    };
    let held = Held::new(copy, fetched, file);
    let Ok(item) = item_of(alloc, &row.url, approved_of(row), Some(Lent::of(&held))) else {
        drop(held);
        return Err(CacheFault::Memory);
    };
    let edit = FileEdit::Offered(held);
    let change = CacheChange::set(alloc, Word::New, row.url, edit, item)?;
    Ok(change)
}

/// The octets aren't the candidate's: they are the approved file's, or new.
fn beside_approved(
    alloc: Global,
    row: &CachedFile,
    octets: &[u8],
    fetched: Moment,
    file: UsageFile,
) -> Result<CacheChange, CacheFault>
    requires read { file_of octets.now ≡ Ok file }
    requires own { file.url ≡ row.now.url }
    ensures { (files : List Row) → SortKeysAscend url_of files → file_at row.now.url files ≡ Some row.now → Makes (step.beside_approved (held_file octets.now fetched) file files row.now row.now.approved) files result }
{
    match &row.approved {
        Some((approved, approval)) => {
            if octets == approved.octets() {
                drop(file);
                approved_again(alloc, row, approved, *approval, fetched)
            } else {
                new_candidate(alloc, row, octets, fetched, file)
            }
        }
        None => new_candidate(alloc, row, octets, fetched, file),
    }
}

/// A file of the URL is held: the octets are the candidate's, the approved file's, or new.
fn beside_candidate(
    alloc: Global,
    row: &CachedFile,
    octets: &[u8],
    fetched: Moment,
    file: UsageFile,
) -> Result<CacheChange, CacheFault>
    requires read { file_of octets.now ≡ Ok file }
    requires own { file.url ≡ row.now.url }
    ensures { (files : List Row) → SortKeysAscend url_of files → file_at row.now.url files ≡ Some row.now → Makes (step.beside_candidate (held_file octets.now fetched) file files row.now row.now.candidate) files result }
{
    match &row.candidate {
        Some(candidate) => {
            if octets == candidate.octets() {
                drop(file);
                candidate_again(alloc, row, candidate, fetched)
            } else {
                beside_approved(alloc, row, octets, fetched, file)
            }
        }
        None => beside_approved(alloc, row, octets, fetched, file),
    }
}

/// No file of the URL is held.
fn new_url(
    alloc: Global,
    files: &SortedRows<CachedFile>,
    octets: &[u8],
    fetched: Moment,
    file: UsageFile,
) -> Result<CacheChange, CacheFault>
    requires read { file_of octets.now ≡ Ok file }
    requires free { file_at file.url files.now.rows ≡ None }
    ensures { Makes (step.import_cases (held_file octets.now fetched) file files.now.rows None) files.now.rows result }
{
    if files.len() >= MOST_FILES {
        drop(file);
        return Err(CacheFault::CacheFull);
    }
    let Ok(copy) = Bytes::new(alloc, octets) else {
        drop(file);
        return Err(CacheFault::Memory);
    };
    let url = file.url;
    let held = Held::new(copy, fetched, file);
    let Ok(item) = item_of(alloc, &url, None, Some(Lent::of(&held))) else {
        drop(held);
        return Err(CacheFault::Memory);
    };
    let edit = FileEdit::Offered(held);
    let change = CacheChange::set(alloc, Word::New, url, edit, item)?;
    Ok(change)
}

/// What the import of octets that were fetched at a moment changes.
pub fn import(
    alloc: Global,
    files: &SortedRows<CachedFile>,
    octets: &[u8],
    fetched: Moment,
) -> Result<CacheChange, CacheFault>
    requires { SortKeysAscend url_of files.now.rows }
    ensures { Makes (step.import_step octets.now fetched files.now.rows) files.now.rows result }
{
    let file = read_file(alloc, octets)?;
    match files.get(&file.url) {
        Some(row) => beside_candidate(alloc, row, octets, fetched, file),
        None => new_url(alloc, files, octets, fetched, file),
    }
}
