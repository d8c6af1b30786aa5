//! The cache of usage files.
ghost use Rattle.std.specs.Prelude.{◌≡◌, ◌≤◌, [], option_copied, IfOk, IfErr, OnOk, OnErr, if◌then◌else◌, false, Some, None};
ghost use Rattle.std.specs.Option.{option_map};
ghost use Rattle.base_rows.specs.Sortable.{SortKeysAscend};
ghost use Rattle.usage_tables.specs.Files.{url_of, file_at, IsSoundFiles};
ghost use Rattle.usage_tables.specs.FileEdits.{edited, room_for};
ghost use Rattle.usage_tables.specs.Policies.{candidate_policy};
ghost use Rattle.usage_tables.specs.Limits.{last_moment};
ghost use Rattle.usage_tables.specs.FileCommands.{import_step, verdict_step, revoke_step};
ghost use Rattle.usage_tables.specs.FileItems.{with_file_item};
ghost use Rattle.file_cache.specs.Planned.{IsMemory, Plans};

use crate::change::CacheChange;
use crate::edits::edited_row;
use crate::imports::import;
use crate::take::{push, row_in};
use crate::verdicts::{judge, revoke};
use acl_model::Policy;
use base_rows::SortedRows;
use mud_base::{Memory, Moment};
use mud_url::MudUrl;
use mud_world::Item;
use std::alloc::Global;
use std::marker::Model;
use usage_tables::{CacheFault, CachedFile, FileEdit, OperatorVerdict};

/// The usage files that the manager holds, of at most 128 URLs, in the order of the URLs: of each at
/// most one that the operator approved and one that waits for a verdict. All approved files together
/// have at most 4,096 entries. Contracts see the cache as the list and its room.
pub struct FileCache {
    alloc: Global,
    files: SortedRows<CachedFile>,
}

impl Drop for FileCache {
    fn drop(self) {
        let FileCache { alloc: _, files: _ } = self;
    }
}

impl Model for FileCache {
    ghost use Rattle.usage_tables.specs.Files.{IsSoundFiles};
    ghost use Rattle.file_cache.specs.Changes.{Files};

    ghost Value = { Files };

    ghost view = { λ c. record { files = c.files.rows; room = c.files.room } };

    ghost invariant = { λ c. IsSoundFiles c.files.rows };
}

impl FileCache {
    /// A cache with no files. It takes no memory.
    pub fn new(alloc: Global) -> FileCache
        ensures { result.files ≡ [] }
    {
        FileCache {
            alloc,
            files: SortedRows::new(alloc),
        }
    }

    /// What is held, in the order of the URLs.
    pub fn files(&self) -> &[CachedFile]
        ensures files { result.now ≡ self.now.files }
        ensures sound { IsSoundFiles self.now.files }
    {
        self.files.rows()
    }

    /// What is held of a URL.
    #[tactic(auto, unfolding(usage_tables::specs::Files::file_at))]
    pub fn file_at(&self, url: &MudUrl) -> Option<&CachedFile>
        ensures { option_copied result ≡ file_at url.now self.now.files }
    {
        self.files.get(url)
    }

    /// The policy that the candidate of a URL says, which counts for nothing before it is approved.
    #[tactic(auto, unfolding(usage_tables::specs::Policies::candidate_policy, usage_tables::specs::Policies::candidate_in_row, usage_tables::specs::Policies::policy_in_held))]
    pub fn candidate_policy(&self, url: &MudUrl) -> Option<&Policy>
        ensures { option_copied result ≡ candidate_policy self.now.files url.now }
    {
        match self.file_at(url) {
            Some(row) => match &row.candidate {
                Some(candidate) => Some(&candidate.file().policy),
                None => None,
            },
            None => None,
        }
    }

    /// A usage file is imported, fetched at a moment. The first case that holds counts. The octets are
    /// no usage file: [`CacheFault::File`]. They are held of the URL already, as the candidate or as
    /// the approved file, which counts as fetched at the later of both moments (`same`). A file of
    /// the URL is held that was generated later: [`CacheFault::Older`]. The URL isn't held and 128
    /// are: [`CacheFault::CacheFull`]. Otherwise it becomes the candidate, in place of an earlier one
    /// (`new`).
    pub fn plan_import(&mut self, octets: &[u8], fetched: Moment) -> Result<CacheChange, CacheFault>
        ensures { Plans (import_step octets.now fetched self.old.files) self.old self.new result }
    {
        moment_fits(fetched);
        let change = import(self.alloc, &self.files, octets, fetched)?;
        let Ok(()) = make_room(&mut self.files, change.edit()) else {
            drop(change);
            return Err(CacheFault::Memory);
        };
        Ok(change)
    }

    /// The operator gives a verdict on the candidate of a URL that has this digest. The first case
    /// that holds counts. The approved file has the digest and this approval already (`same`). The
    /// URL has no candidate: [`CacheFault::NoCandidate`]. It has another digest:
    /// [`CacheFault::Digest`]. The verdict is `Failed`: the candidate goes, and the URL with it where
    /// no file is approved (`rejected`). The verdict is `Verified` and the file has no signature:
    /// [`CacheFault::NoSignature`]. All approved files, with this one in its place, would have more
    /// than 4,096 entries: [`CacheFault::PolicyFull`]. Otherwise the candidate becomes the approved
    /// file (`approved`).
    pub fn plan_verdict(
        &mut self,
        url: &MudUrl,
        digest: &[u8],
        v: OperatorVerdict,
    ) -> Result<CacheChange, CacheFault>
        ensures { Plans (verdict_step url.now digest.now v self.old.files) self.old self.new result }
    {
        let change = judge(self.alloc, &self.files, url, digest, v)?;
        let Ok(()) = make_room(&mut self.files, change.edit()) else {
            drop(change);
            return Err(CacheFault::Memory);
        };
        Ok(change)
    }

    /// The operator takes the approval of a URL's file back: the file goes, and the URL with it where
    /// there is no candidate (`revoked`); [`CacheFault::NotApproved`] where no file is approved.
    pub fn plan_revoke(&mut self, url: &MudUrl) -> Result<CacheChange, CacheFault>
        ensures { Plans (revoke_step url.now self.old.files) self.old self.new result }
    {
        let change = revoke(self.alloc, &self.files, url)?;
        let Ok(()) = make_room(&mut self.files, change.edit()) else {
            drop(change);
            return Err(CacheFault::Memory);
        };
        Ok(change)
    }

    /// Takes the files of a URL from the item in which they are kept, behind those taken so far. The
    /// answer is true exactly where the item keeps such files and may stand behind theirs; else the
    /// cache stays as it was, also where memory was wanted.
    pub fn take(&mut self, item: &Item) -> Result<bool, Memory>
        ensures taken { IfOk result (λ yes. with_file_item self.old.files item.now ≡ (if yes then Some self.new.files else None)) }
        ensures refused { IfOk result (λ yes. yes ≡ false → self.new.files ≡ self.old.files) }
        ensures memory { OnErr result (self.new.files ≡ self.old.files) }
    {
        match row_in(self.alloc, item)? {
            Some(row) => push(&mut self.files, row),
            None => Ok(false),
        }
    }

    /// Makes a change that was planned. Nothing was committed since. It takes no memory, and can't
    /// fail.
    pub fn commit(&mut self, change: CacheChange)
        requires room { room_for change.edit ≤ self.old.room }
        requires sound { IsSoundFiles (edited change.edit change.url self.old.files) }
        ensures { self.new.files ≡ edited change.edit change.url self.old.files }
    {
        let (url, edit) = change.into_edit();
        commit_edit(&mut self.files, url, edit);
    }
}

/// Makes an edit of the row of a URL.
fn commit_edit(files: &mut SortedRows<CachedFile>, url: MudUrl, edit: FileEdit)
    requires ascend { SortKeysAscend url_of files.old.rows }
    requires room { room_for edit ≤ files.old.room }
    ensures { files.new.rows ≡ edited edit url files.old.rows }
{
    let found = files.remove(&url);
    if let Some(row) = edited_row(edit, url, found) {
        files.put(row);
    }
}

/// Makes room for the row that an edit may add.
fn make_room(files: &mut SortedRows<CachedFile>, edit: &FileEdit) -> Result<(), CacheFault>
    ensures rows { files.new.rows ≡ files.old.rows }
    ensures room { OnOk result (room_for edit.now ≤ files.new.room) }
    ensures memory { IfErr result IsMemory }
{
    files.reserve(edit.room())?;
    Ok(())
}

/// Every moment is at most the last one.
fn moment_fits(moment: Moment)
    ensures { moment ≤ last_moment }
{
    let _seconds = moment.seconds();
}
