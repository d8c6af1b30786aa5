//! A change of the files that is planned, and committed later.
ghost use Rattle.std.specs.Prelude.{◌≡◌, ◌∷◌, [], IfOk};
ghost use Rattle.usage_tables.specs.Policies.{policy_change};
ghost use Rattle.file_cache.specs.Changes.{no_change, set_change, gone_change};

use item_codec::Word;
use item_codec::kinds::FILE_KIND;
use mud_base::{Bytes, Listed, Memory};
use mud_url::MudUrl;
use mud_world::{Item, Put};
use std::alloc::Global;
use std::marker::Model;
use std::mem;
use usage_tables::{FileEdit, PolicyChange};

/// A planned change of the files of one URL. Contracts see what it answers, the URL, the edit and
/// the puts.
pub struct CacheChange {
    word: Word,
    url: MudUrl,
    edit: FileEdit,
    puts: Listed<Put>,
}

// It is written out, so that what lets one go doesn't prove again how each part is dropped.
impl Drop for CacheChange {
    fn drop(self) {
        let CacheChange {
            word: _,
            url: _,
            edit: _,
            puts: _,
        } = self;
    }
}

impl Model for CacheChange {
    ghost use Rattle.file_cache.specs.Changes.{PlannedFile};

    ghost Value = { PlannedFile };

    ghost view = { λ c. record { word = c.word; url = c.url; edit = c.edit; puts = c.puts } };
}

impl CacheChange {
    /// Nothing changes of the files of a URL. It takes no memory.
    #[tactic(auto, unfolding(crate::specs::Changes::no_change))]
    pub(crate) fn none(alloc: Global, url: MudUrl) -> CacheChange
        ensures { result ≡ no_change url }
    {
        CacheChange {
            word: Word::Same,
            url,
            edit: FileEdit::Unchanged,
            puts: Listed::new(alloc),
        }
    }

    /// An edit, and the one put that it means.
    fn of(
        alloc: Global,
        word: Word,
        url: MudUrl,
        edit: FileEdit,
        put: Put,
    ) -> Result<CacheChange, Memory>
        ensures { IfOk result (λ change. change ≡ record { word = word; url = url; edit = edit; puts = put ∷ [] }) }
    {
        let mut puts = Listed::new(alloc);
        puts.push(put)?;
        Ok(CacheChange {
            word,
            url,
            edit,
            puts,
        })
    }

    /// An edit with which the files of the URL are kept in this item.
    #[tactic(auto, unfolding(crate::specs::Changes::set_change))]
    pub(crate) fn set(
        alloc: Global,
        word: Word,
        url: MudUrl,
        edit: FileEdit,
        item: Item,
    ) -> Result<CacheChange, Memory>
        ensures { IfOk result (λ change. change ≡ set_change word url edit item) }
    {
        CacheChange::of(alloc, word, url, edit, Put::Set(item))
    }

    /// An edit with which the URL goes.
    #[tactic(auto, unfolding(crate::specs::Changes::gone_change))]
    pub(crate) fn gone(
        alloc: Global,
        word: Word,
        url: MudUrl,
        edit: FileEdit,
    ) -> Result<CacheChange, Memory>
        ensures { IfOk result (λ change. change ≡ gone_change word url edit url) }
    {
        let key = Bytes::new(alloc, url.text())?;
        CacheChange::of(alloc, word, url, edit, Put::Gone(FILE_KIND, key))
    }

    /// What the change does.
    pub fn word(&self) -> Word
        ensures { result ≡ self.now.word }
    {
        self.word
    }

    /// The URL whose files change: that which the command or the file names.
    pub fn url(&self) -> &MudUrl
        ensures { result.now ≡ self.now.url }
    {
        &self.url
    }

    /// What changes of the files of the URL.
    pub fn edit(&self) -> &FileEdit
        ensures { result.now ≡ self.now.edit }
    {
        &self.edit
    }

    /// The puts that the change means, without that of the stamp: none exactly where nothing changes.
    pub fn puts(&self) -> &[Put]
        ensures { result.now ≡ self.now.puts }
    {
        self.puts.as_slice()
    }

    /// Moves the puts out. All else of the change stays.
    pub fn take_puts(&mut self) -> Listed<Put>
        ensures puts { result ≡ self.old.puts }
        ensures left { self.new ≡ record self.old { puts = [] } }
    {
        let none = self.puts.empty_like();
        mem::replace(&mut self.puts, none)
    }

    /// What becomes of the policy of the URL. Where it comes, it is that of the candidate, which the
    /// cache lends until the change is committed.
    pub fn policy(&self) -> PolicyChange
        ensures { result ≡ policy_change self.now.edit }
    {
        self.edit.policy()
    }

    /// The URL and the edit.
    pub(crate) fn into_edit(self) -> (MudUrl, FileEdit)
        ensures url { result.0 ≡ self.url }
        ensures edit { result.1 ≡ self.edit }
    {
        let CacheChange {
            word: _,
            url,
            edit,
            puts: _,
        } = self;
        (url, edit)
    }
}
