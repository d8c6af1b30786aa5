//! Taking files from the items in which they are kept.
ghost use Rattle.std.specs.Prelude.{◌≡◌, ◌++◌, ◌∷◌, [], true, false, if◌then◌else◌, Some, None, IsTrue, IfOk, OnErr, IfErr, MatchOption};
ghost use Rattle.mud_file.specs.File.{file_of};
ghost use Rattle.usage_tables.specs.Files as spec;
ghost use Rattle.usage_tables.specs.Files.{IsSoundFiles};
ghost use Rattle.usage_tables.specs.FileItems.{file_in, file_row, if_sound_file, has_room, may_stand_behind};
ghost use Rattle.file_cache.specs.Planned.{IsReadAs};

use crate::imports::is_older;
use crate::read::{Part, parts_in};
use crate::verdicts::is_signed;
use base_rows::SortedRows;
use item_codec::kinds::FILE_KIND;
use mud_base::{Bytes, Memory, Moment};
use mud_file::{FileFault, UsageFile, read_usage};
use mud_url::MudUrl;
use mud_world::Item;
use std::alloc::Global;
use usage_tables::entries::{approved_entries, entry_count};
use usage_tables::limits::{MOST_FILES, MOST_POLICY_ENTRIES};
use usage_tables::{Approval, CachedFile, Held};

/// The usage file that octets are, where they are one.
fn usage_in(alloc: Global, octets: &[u8]) -> Result<Option<UsageFile>, Memory>
    ensures { IfOk result (IsReadAs (file_of octets.now)) }
{
    match read_usage(alloc, octets) {
        Ok(file) => Ok(Some(file)),
        Err(FileFault::Memory) => Err(Memory),
        Err(FileFault::Broken(_)) => Ok(None),
    }
}

/// A part of an item as a held file of a URL, where its octets are a usage file of the URL and it was
/// fetched at a moment.
fn held_of(alloc: Global, url: &[u8], part: Part<'_>) -> Result<Option<Held>, Memory>
    ensures { IfOk result (λ found. MatchOption found (spec.is_held url.now part.entry ≡ false) (λ held. (held ≡ part.entry) × (spec.is_held url.now part.entry ≡ true))) }
{
    let Some(fetched) = Moment::new(part.fetched) else {
        return Ok(None);
    };
    let Some(file) = usage_in(alloc, part.octets)? else {
        return Ok(None);
    };
    if file.url.text() == url {
        let Ok(octets) = Bytes::new(alloc, part.octets) else {
            drop(file);
            return Err(Memory);
        };
        Ok(Some(Held::new(octets, fetched, file)))
    } else {
        drop(file);
        Ok(None)
    }
}

/// Whether a held file may have an approval: only one with a signature can be verified.
#[tactic(auto, unfolding(usage_tables::specs::Files::may_have))]
fn may_have(held: &Held, approval: Approval) -> bool
    ensures { result ≡ spec.may_have held.now approval }
{
    match approval {
        Approval::Verified => is_signed(held),
        Approval::Waived => true,
    }
}

/// A part of an item as the approved file of a URL.
fn approved_of(
    alloc: Global,
    url: &[u8],
    part: Part<'_>,
    approval: Approval,
) -> Result<Option<Held>, Memory>
    ensures { IfOk result (λ found. MatchOption found (spec.is_approved url.now (part.entry, approval) ≡ false) (λ held. (held ≡ part.entry) × (spec.is_approved url.now (part.entry, approval) ≡ true))) }
{
    let Some(held) = held_of(alloc, url, part)? else {
        return Ok(None);
    };
    if may_have(&held, approval) {
        Ok(Some(held))
    } else {
        drop(held);
        Ok(None)
    }
}

/// Whether a candidate may stand beside an approved file: it has other octets, and was generated no
/// earlier.
#[tactic(auto, unfolding(usage_tables::specs::Files::may_follow))]
fn may_follow(candidate: &Held, approved: &Held) -> bool
    ensures { result ≡ spec.may_follow candidate.now approved.now }
{
    candidate.octets() != approved.octets() && !is_older(candidate.file(), approved)
}

/// The URL of a file that is held of it.
fn url_of(held: &Held, url: &[u8]) -> MudUrl
    requires { spec.is_held url.now held.now ≡ true }
    ensures { result ≡ url.now }
{
    held.file().url
}

/// The row of a URL with a candidate alone, where it may be kept.
fn candidate_row(
    alloc: Global,
    url: &[u8],
    candidate: Part<'_>,
) -> Result<Option<CachedFile>, Memory>
    ensures { IfOk result (λ row. row ≡ if_sound_file (file_row url.now None (Some candidate.entry))) }
{
    let Some(held) = held_of(alloc, url, candidate)? else {
        return Ok(None);
    };
    Ok(Some(CachedFile {
        url: url_of(&held, url),
        approved: None,
        candidate: Some(held),
    }))
}

/// The row of a URL with an approved file alone, where it may be kept.
fn approved_row(
    alloc: Global,
    url: &[u8],
    approved: Part<'_>,
    approval: Approval,
) -> Result<Option<CachedFile>, Memory>
    ensures { IfOk result (λ row. row ≡ if_sound_file (file_row url.now (Some (approved.entry, approval)) None)) }
{
    let Some(held) = approved_of(alloc, url, approved, approval)? else {
        return Ok(None);
    };
    Ok(Some(CachedFile {
        url: approved_url(&held, url, approval),
        approved: Some((held, approval)),
        candidate: None,
    }))
}

/// The URL of a file that is approved of it.
fn approved_url(held: &Held, url: &[u8], approval: Approval) -> MudUrl
    requires { spec.is_approved url.now (held.now, approval) ≡ true }
    ensures { result ≡ url.now }
{
    url_of(held, url)
}

/// The row of a URL with both, where it may be kept.
fn both_row(
    alloc: Global,
    url: &[u8],
    approved: Part<'_>,
    approval: Approval,
    candidate: Part<'_>,
) -> Result<Option<CachedFile>, Memory>
    ensures { IfOk result (λ row. row ≡ if_sound_file (file_row url.now (Some (approved.entry, approval)) (Some candidate.entry))) }
{
    let Some(kept) = approved_of(alloc, url, approved, approval)? else {
        return Ok(None);
    };
    let held = match held_of(alloc, url, candidate) {
        Ok(Some(held)) => held,
        Ok(None) => {
            drop(kept);
            return Ok(None);
        }
        Err(memory) => {
            drop(kept);
            return Err(memory);
        }
    };
    if may_follow(&held, &kept) {
        Ok(Some(CachedFile {
            url: url_of(&held, url),
            approved: Some((kept, approval)),
            candidate: Some(held),
        }))
    } else {
        drop(kept);
        drop(held);
        Ok(None)
    }
}

/// The row of a URL with these files, where it may be kept.
fn row_of(
    alloc: Global,
    url: &[u8],
    approved: Option<(Part<'_>, Approval)>,
    candidate: Option<Part<'_>>,
) -> Result<Option<CachedFile>, Memory>
    ensures { IfOk result (λ row. row ≡ if_sound_file (file_row url.now approved.entry candidate.entry)) }
{
    match approved {
        Some((part, approval)) => match candidate {
            Some(candidate) => both_row(alloc, url, part, approval, candidate),
            None => approved_row(alloc, url, part, approval),
        },
        None => match candidate {
            Some(candidate) => candidate_row(alloc, url, candidate),
            None => Ok(None),
        },
    }
}

/// The row that an item keeps, where it keeps one.
pub(crate) fn row_in(alloc: Global, item: &Item) -> Result<Option<CachedFile>, Memory>
    ensures { IfOk result (λ row. row ≡ file_in item.now) }
{
    if item.kind != FILE_KIND {
        return Ok(None);
    }
    match parts_in(item.body.octets()) {
        Some((approved, candidate)) => row_of(alloc, item.key.octets(), approved, candidate),
        None => Ok(None),
    }
}

/// Whether there is room for a row, and for the entries of its approved file.
#[tactic(auto, unfolding(usage_tables::specs::FileItems::has_room))]
fn has_room(files: &SortedRows<CachedFile>, row: &CachedFile) -> bool
    requires { IsSoundFiles files.now.rows }
    ensures { result ≡ has_room files.now.rows row.now }
{
    files.len() < MOST_FILES
        && entry_count(files.rows()) + approved_entries(row) <= MOST_POLICY_ENTRIES
}

/// Adds a row behind all others, where it may stand there.
pub(crate) fn push(files: &mut SortedRows<CachedFile>, row: CachedFile) -> Result<bool, Memory>
    requires { IsSoundFiles files.old.rows }
    ensures taken { IfOk result (λ yes. yes ≡ may_stand_behind files.old.rows row) }
    ensures rows { IfOk result (λ yes. files.new.rows ≡ (if yes then files.old.rows ++ row ∷ [] else files.old.rows)) }
    ensures memory { OnErr result (files.new.rows ≡ files.old.rows) }
{
    if has_room(files, &row) {
        match files.reserve(1) {
            Ok(()) => Ok(files.push_last(row)),
            Err(memory) => {
                drop(row);
                Err(memory)
            }
        }
    } else {
        drop(row);
        Ok(false)
    }
}
