//! The lists of the books while items are taken.
ghost use Rattle.std.specs.Prelude.{◌≡◌, ◌==◌, ◌&&◌, ◌↔◌, nat_lt, is_none, true, IsTrue, IfOk, OnErr};
ghost use Rattle.std.specs.Option.{option_map};
ghost use Rattle.table_model.specs.ThingItems.{with_thing_item};
ghost use Rattle.table_model.specs.BindItems.{with_stamp_item};
ghost use Rattle.table_model.specs.TakenItems.{is_empty, have_none, with_bind_item, with_item};
ghost use Rattle.usage_tables.specs.FileItems.{with_file_item};
ghost use Rattle.desk_model.specs.Items.{none_kept};
ghost use Rattle.bind_book.specs.Reading.{IsTaken};
ghost use Rattle.mud_desk.specs.Items.Loaded.{kept_of, IsReadingOf, set_things, set_files, set_binds, set_stamp};

use crate::items::stamp::stamp_in;
use bind_book::BindBook;
use file_cache::FileCache;
use item_codec::kinds::{FILE_KIND, STAMP_KIND, THING_KIND};
use mud_base::{Memory, Moment};
use mud_world::Item;
use std::alloc::Global;
use thing_book::ThingBook;

/// What was taken of items: the Things, the usage files, the classes, local networks and names, and
/// the moment of the last change.
#[derive(Drop)]
pub struct Loaded {
    pub things: ThingBook,
    pub files: FileCache,
    pub binds: BindBook,
    pub stamp: Option<Moment>,
}

impl Loaded {
    /// Nothing was taken yet. It takes no memory.
    #[tactic(auto, unfolding(desk_model::specs::Items::none_kept))]
    pub fn new(alloc: Global) -> Loaded
        ensures { kept_of result ≡ none_kept }
    {
        Loaded {
            things: ThingBook::new(alloc),
            files: FileCache::new(alloc),
            binds: BindBook::new(alloc),
            stamp: None,
        }
    }

    /// Takes what an item keeps, where that may stand behind what the items taken so far keep, which
    /// were those before it in the keeper's order: true exactly there. Else, and without memory, all
    /// is as before.
    #[tactic(auto, unfolding(table_model::specs::TakenItems::with_item))]
    pub fn take(&mut self, item: &Item) -> Result<bool, Memory>
        ensures loaded { IfOk result (IsTaken (with_item with_file_item is_empty (kept_of self.old) item.now) (kept_of self.old) (kept_of self.new)) }
        ensures memory { OnErr result (kept_of self.new ≡ kept_of self.old) }
    {
        let no_stamp = self.stamp.is_none();
        if item.kind == THING_KIND
            && self.files.files().is_empty()
            && self.has_no_binds()
            && no_stamp
        {
            self.take_thing(item)
        } else if item.kind == FILE_KIND && self.has_no_binds() && no_stamp {
            self.take_files(item)
        } else if item.kind > FILE_KIND && item.kind < STAMP_KIND && no_stamp {
            self.take_binds(item)
        } else if item.kind == STAMP_KIND {
            Ok(self.take_stamp(item))
        } else {
            Ok(false)
        }
    }

    /// Whether no class, local network or name was taken.
    #[tactic(auto, unfolding(table_model::specs::TakenItems::have_none))]
    fn has_no_binds(&self) -> bool
        ensures { result ≡ have_none self.now.binds.binds }
    {
        self.binds.classes().is_empty()
            && self.binds.locals().is_empty()
            && self.binds.names().is_empty()
    }

    /// Takes a Thing.
    fn take_thing(&mut self, item: &Item) -> Result<bool, Memory>
        ensures loaded { IfOk result (IsTaken (option_map (set_things (kept_of self.old)) (with_thing_item self.old.things.things item.now)) (kept_of self.old) (kept_of self.new)) }
        ensures memory { OnErr result (kept_of self.new ≡ kept_of self.old) }
    {
        self.things.take(item)
    }

    /// Takes the files of a URL.
    fn take_files(&mut self, item: &Item) -> Result<bool, Memory>
        ensures loaded { IfOk result (IsTaken (option_map (set_files (kept_of self.old)) (with_file_item self.old.files.files item.now)) (kept_of self.old) (kept_of self.new)) }
        ensures memory { OnErr result (kept_of self.new ≡ kept_of self.old) }
    {
        self.files.take(item)
    }

    /// Takes a class, the local networks or a name.
    fn take_binds(&mut self, item: &Item) -> Result<bool, Memory>
        ensures loaded { IfOk result (IsTaken (option_map (set_binds (kept_of self.old)) (with_bind_item self.old.binds.binds item.now)) (kept_of self.old) (kept_of self.new)) }
        ensures memory { OnErr result (kept_of self.new ≡ kept_of self.old) }
    {
        self.binds.take(item)
    }

    /// Takes the stamp, where none was taken.
    #[tactic(auto, unfolding(table_model::specs::BindItems::with_stamp_item))]
    fn take_stamp(&mut self, item: &Item) -> bool
        ensures { IsTaken (option_map (set_stamp (kept_of self.old)) (with_stamp_item self.old.stamp item.now)) (kept_of self.old) (kept_of self.new) result }
    {
        if self.stamp.is_some() {
            return false;
        }
        let Some(moment) = stamp_in(item) else {
            return false;
        };
        self.stamp = Some(moment);
        true
    }
}

/// Takes all items, which stand in the keeper's order, where nothing was taken yet, or gives the index
/// of the first of them that is no record.
#[tactic(auto, unfolding(desk_model::specs::Items::tables_in))]
pub(crate) fn take_into(nothing: Loaded, items: &[Item]) -> Result<Result<Loaded, usize>, Memory>
    requires { kept_of nothing ≡ none_kept }
    ensures { IfOk result (IsReadingOf items.now) }
{
    let mut loaded = nothing;
    for (index, item) in items.iter().enumerate() {
        if !loaded.take(item)? {
            return Ok(Err(index));
        }
    }
    Ok(Ok(loaded))
}
