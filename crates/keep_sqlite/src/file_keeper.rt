//! A keeper over the file at a path, which is opened when the keeper is made.
ghost use Rattle.std.specs.Prelude.{◌≡◌, ◌⊎◌, List, true, false, is_ok, is_some, IsTrue, IfOk, IfErr, IfSome, OnOk, OnErr};
ghost use Rattle.mud_world.specs.declared.item.Item.{Item};
ghost use Rattle.mud_world.specs.Calls.{counted};
ghost use Rattle.mud_world.specs.Causes.{Counts};
ghost use Rattle.mud_world.specs.Items as items;
ghost use Rattle.mud_world.specs.Items.{is_batch, put_all, IsOrdered};
ghost use Rattle.sqlite.specs.Files.{over_files};
ghost use Rattle.sqlite.specs.FileStore.{view};
ghost use Rattle.sqlite.specs.WalFiles.{image_at};
ghost use Rattle.sqlite_trees.specs.View.{IsClean};
ghost use Rattle.keep_sqlite.specs.declared.refusal.Refusal.{Refusal};
ghost use Rattle.keep_sqlite.specs.FileKeepers.{is_read, opened_items, IsAdopted, IsOpenedOver, OpenedIsClean, OpenedLeavesTold, OpenedMayLeave, OpenedMayMake, OpenedRefuses, OpenedRests, OpenedTells, OpenedUnread};
ghost use Rattle.keep_sqlite.specs.Refusals.{fault_of, refused, told_of};
ghost use Rattle.keep_sqlite.specs.Reopened.{HeldStore, IsFoundNext, IsHeldNext};
ghost use Rattle.keep_sqlite.specs.Standing.{IsAtRest};

use crate::first_opening::connect;
use crate::laws::{leave, told_items_are_left};
use crate::opened_file::OpenedFile;
use crate::refusal::{Refusal, count, fault_of};
use mud_base::Listed;
use mud_world::{Item, KeepFault, Keeper, Put};
use sqlite::{Alter, Connection, FileFrom, FileStore, Start};
use sqlite_disk::Disk;
use std::alloc::Global;

/// A keeper over the file at a path, or the cause why the file couldn't be opened: then each call
/// fails for it. Why a call failed is told on standard error, in a line with the path; where one fails
/// for the same cause as the one before, no second time. `S` stands for what the file held when it was
/// opened.
pub struct FileKeeper<T: Alter + Drop, S: Start> {
    rt: HostRuntime,
    path: String,
    keeper: Result<OpenedFile<T, S>, Refusal>,
    /// How often a call has failed.
    faults: u64,
    /// What standard error was told since the last call that answered Ok.
    said: Option<Refusal>,
}

// It is written out, so that a crate that lets a keeper go doesn't prove again how each part is dropped.
impl<T: Alter + Drop, S: Start> Drop for FileKeeper<T, S> {
    fn drop(self) {
        let FileKeeper {
            rt: _,
            path: _,
            keeper,
            faults: _,
            said: _,
        } = self;
        if let Ok(opened) = keeper {
            let keeper = opened.keeper;
            drop(keeper.connection);
        }
    }
}

impl<T: Alter + Drop, S: Start> FileKeeper<T, S> {
    /// A keeper over the connection to the file at the path, whose items aren't read yet. It takes no
    /// memory.
    pub(crate) fn over(
        rt: &HostRuntime,
        path: String,
        opened: Result<Connection<T>, Refusal>,
    ) -> FileKeeper<T, S>
        requires { IfOk opened (IsAtRest T.Store (image_at S.Start)) }
        ensures path { result.path ≡ path }
        ensures adopted { IsAdopted opened result.keeper }
        ensures rests { OpenedLeavesTold T.Store result.keeper }
        ensures faults { result.faults ≡ 0 }
        ensures unread { is_read result.keeper ≡ false }
    {
        FileKeeper {
            rt: *rt,
            path,
            keeper: adopted(opened),
            faults: 0,
            said: None,
        }
    }

    /// The keeper over the connection, or the cause why the file couldn't be opened.
    pub fn into_keeper(self) -> Result<OpenedFile<T, S>, Refusal>
        ensures { result ≡ self.keeper }
    {
        let FileKeeper {
            rt: _,
            path: _,
            keeper,
            faults: _,
            said: _,
        } = self;
        keeper
    }
}

/// A keeper over the connection, whose items aren't read yet.
fn adopted<T: Alter + Drop, S: Start>(
    opened: Result<Connection<T>, Refusal>,
) -> Result<OpenedFile<T, S>, Refusal>
    requires { IfOk opened (IsAtRest T.Store (image_at S.Start)) }
    ensures adopted { IsAdopted opened result }
    ensures rests { OpenedLeavesTold T.Store result }
    ensures unread { is_read result ≡ false }
{
    match opened {
        Ok(connection) => Ok(OpenedFile::adopt(connection)),
        Err(refusal) => Err(refusal),
    }
}

/// A keeper over the file at the path, which is opened now. `S` stands for what the file holds,
/// whatever it is.
pub fn open_file<S: Start>(
    rt: &HostRuntime,
    path: String,
    start: S,
) -> FileKeeper<FileStore<FileFrom<S>>, S>
    ensures opened { IsOpenedOver (image_at S.Start) result.keeper }
    ensures faults { result.faults ≡ 0 }
{
    let opened = connect(rt, path.as_str(), start);
    FileKeeper::over(rt, path, opened)
}

/// The store of a keeper whose file was opened, and none of another. Whatever a crash leaves of it at this moment, the next
/// first opening answers items that the keeper may leave: those that it told, where it did.
pub fn leave_file<D: Disk + Drop, S: Start>(
    keeper: FileKeeper<FileStore<D>, S>,
) -> Option<FileStore<D>>
    ensures some { is_some result ≡ is_ok keeper.keeper }
    ensures found { IfSome result (λ store. IsClean (view store)
        → IsFoundNext store (OpenedMayLeave over_files keeper.keeper)) }
    ensures told { IfSome result (λ store. IsClean (view store) → OpenedTells over_files keeper.keeper
        → IsFoundNext store (λ list. list ≡ opened_items over_files keeper.keeper)) }
    // Where the file held a store, the next first opening finds one.
    ensures held { IfSome result (λ store. IsClean (view store)
        → HeldStore (image_at S.Start) → IsHeldNext store) }
{
    match keeper.into_keeper() {
        Ok(opened) => Some(leave(opened.keeper)),
        Err(_) => None,
    }
}

/// The items of a keeper whose file was opened.
fn read_opened<T: Alter + Drop, S: Start>(
    alloc: Global,
    keeper: &mut Result<OpenedFile<T, S>, Refusal>,
) -> Result<Listed<Item>, Refusal>
    ensures items { OpenedTells T.Store keeper.new
        → IfOk result (λ list. list ≡ opened_items T.Store keeper.new) }
    ensures same { OpenedTells T.Store keeper.new
        → opened_items T.Store keeper.new ≡ opened_items T.Store keeper.old }
    ensures told { OpenedTells T.Store keeper.new → OpenedTells T.Store keeper.old }
    ensures tells { OpenedIsClean T.Store keeper.new → OnOk result (OpenedTells T.Store keeper.new) }
    ensures crash { OpenedTells T.Store keeper.old → (list : List Item) → OpenedMayLeave T.Store keeper.new list
        → OpenedMayLeave T.Store keeper.old list ⊎ (list ≡ opened_items T.Store keeper.old) }
    ensures rests { OnOk result (OpenedRests T.Store keeper.new) }
    ensures opened { OnOk result (is_read keeper.new ≡ true) }
    ensures still { OnErr result (is_read keeper.new ≡ is_read keeper.old) }
    ensures kept { OpenedMayMake T.Store keeper.old keeper.new }
    ensures refused { IfErr result (OpenedUnread T.Store keeper.old keeper.new) }
{
    match keeper {
        Ok(opened) => opened.keeper.read(alloc),
        Err(refusal) => Err(*refusal),
    }
}

/// Does the puts in the store of a keeper whose file was opened.
fn keep_opened<T: Alter + Drop, S: Start>(
    keeper: &mut Result<OpenedFile<T, S>, Refusal>,
    batch: &[Put],
) -> Result<(), Refusal>
    requires opened { IsTrue (is_read keeper.old) }
    requires batch { IsTrue (is_batch batch.now) }
    ensures told { OpenedTells T.Store keeper.new → OpenedTells T.Store keeper.old }
    ensures tells { OpenedIsClean T.Store keeper.new → OnOk result (OpenedTells T.Store keeper.new) }
    ensures ok { OpenedTells T.Store keeper.new
        → OnOk result (opened_items T.Store keeper.new ≡ put_all (opened_items T.Store keeper.old) batch.now) }
    ensures err { OpenedTells T.Store keeper.new
        → OnErr result (opened_items T.Store keeper.new ≡ opened_items T.Store keeper.old) }
    ensures crash { (list : List Item) → OpenedMayLeave T.Store keeper.new list → OpenedMayLeave T.Store keeper.old list
        ⊎ (OpenedTells T.Store keeper.old × (list ≡ put_all (opened_items T.Store keeper.old) batch.now)) }
    ensures rests { OnOk result (OpenedRests T.Store keeper.new) }
    ensures opened { is_read keeper.new ≡ is_read keeper.old }
    ensures refused { IfErr result (OpenedRefuses T.Store keeper.old keeper.new batch.now) }
{
    match keeper {
        Ok(opened) => {
            let answer = opened.keeper.keep(batch);
            told_items_are_left(&opened.keeper);
            answer
        }
        Err(refusal) => Err(*refusal),
    }
}

/// What a keeper answers. Standard error is told why a call failed, unless it was told that last.
fn told<T>(
    answer: Result<T, Refusal>,
    rt: &HostRuntime,
    path: &str,
    said: &mut Option<Refusal>,
) -> Result<T, KeepFault>
    ensures answer { result ≡ told_of answer }
    ensures said { said.new ≡ refused answer }
{
    match answer {
        Ok(value) => {
            *said = None;
            Ok(value)
        }
        Err(refusal) => {
            if *said != Some(refusal) {
                let _printed = eprint!(rt; "mud: {}: {}\n", path, refusal.text());
            }
            *said = Some(refusal);
            Err(fault_of(refusal))
        }
    }
}

impl<T: Alter + Drop, S: Start> Keeper for FileKeeper<T, S> {
    ghost tells = { λ keeper. OpenedTells T.Store keeper.keeper };

    ghost items = { λ keeper. opened_items T.Store keeper.keeper };

    ghost opened = { λ keeper. is_read keeper.keeper };

    ghost left = { λ keeper list. OpenedMayLeave T.Store keeper.keeper list };

    ghost faults = { λ keeper. keeper.faults };

    #[tactic(auto, using(crate::proofs::Lookups::items_ascend))]
    fn open(&mut self, alloc: Global) -> Result<Listed<Item>, KeepFault>
        ensures items { OpenedTells T.Store self.new.keeper
            → IfOk result (λ list. list ≡ opened_items T.Store self.new.keeper) }
        ensures ordered { OpenedTells T.Store self.new.keeper → IsOrdered (opened_items T.Store self.new.keeper) }
        ensures same { OpenedTells T.Store self.new.keeper
            → opened_items T.Store self.new.keeper ≡ opened_items T.Store self.old.keeper }
        ensures told { OpenedTells T.Store self.new.keeper → OpenedTells T.Store self.old.keeper }
        // Where the disk gives back what was written, an Ok tells its items.
        ensures tells { OpenedIsClean T.Store self.new.keeper → OnOk result (OpenedTells T.Store self.new.keeper) }
        ensures crash { OpenedTells T.Store self.old.keeper
            → (list : List Item) → OpenedMayLeave T.Store self.new.keeper list
            → OpenedMayLeave T.Store self.old.keeper list ⊎ (list ≡ opened_items T.Store self.old.keeper) }
        ensures rests { OnOk result (OpenedRests T.Store self.new.keeper) }
        ensures opened { OnOk result (is_read self.new.keeper ≡ true) }
        ensures still { OnErr result (is_read self.new.keeper ≡ is_read self.old.keeper) }
        ensures count { self.new.faults ≡ counted (items.has_failed result) self.old.faults }
        ensures cause { Counts (items.has_failed result) self.old.faults self.new.faults }
        // Whatever it answers, it made the table in a database with no table, or changed nothing.
        ensures kept { OpenedMayMake T.Store self.old.keeper self.new.keeper }
        // A file that couldn't be opened is refused for that cause at each call. Of another, while the disk gives
        // back what was written, an Err is want of memory or what the database answered, or a transaction was
        // begun before, or the database holds no items and isn't one without a table.
        ensures refused { IfErr result (λ fault. (refusal : Refusal) × (fault ≡ fault_of refusal)
            × OpenedUnread T.Store self.old.keeper self.new.keeper refusal) }
    {
        let answer = read_opened(alloc, &mut self.keeper);
        count(&answer, &mut self.faults);
        told(answer, &self.rt, self.path.as_str(), &mut self.said)
    }

    #[tactic(auto, using(crate::proofs::Lookups::items_ascend))]
    fn apply(&mut self, batch: &[Put]) -> Result<(), KeepFault>
        requires opened { IsTrue (is_read self.old.keeper) }
        requires batch { IsTrue (is_batch batch.now) }
        ensures told { OpenedTells T.Store self.new.keeper → OpenedTells T.Store self.old.keeper }
        ensures tells { OpenedIsClean T.Store self.new.keeper → OnOk result (OpenedTells T.Store self.new.keeper) }
        ensures ordered { OpenedTells T.Store self.new.keeper → IsOrdered (opened_items T.Store self.new.keeper) }
        ensures ok { OpenedTells T.Store self.new.keeper
            → OnOk result (opened_items T.Store self.new.keeper ≡ put_all (opened_items T.Store self.old.keeper) batch.now) }
        ensures err { OpenedTells T.Store self.new.keeper
            → OnErr result (opened_items T.Store self.new.keeper ≡ opened_items T.Store self.old.keeper) }
        ensures crash { (list : List Item) → OpenedMayLeave T.Store self.new.keeper list → OpenedMayLeave T.Store self.old.keeper list
            ⊎ (OpenedTells T.Store self.old.keeper × (list ≡ put_all (opened_items T.Store self.old.keeper) batch.now)) }
        ensures rests { OnOk result (OpenedRests T.Store self.new.keeper) }
        ensures opened { is_read self.new.keeper ≡ is_read self.old.keeper }
        ensures count { self.new.faults ≡ counted (items.has_failed result) self.old.faults }
        ensures cause { Counts (items.has_failed result) self.old.faults self.new.faults }
        // While the disk gives back what was written, an Err is what the database answered, or a transaction was
        // begun before.
        ensures refused { IfErr result (λ fault. (refusal : Refusal) × (fault ≡ fault_of refusal)
            × OpenedRefuses T.Store self.old.keeper self.new.keeper batch.now refusal) }
    {
        let answer = keep_opened(&mut self.keeper, batch);
        count(&answer, &mut self.faults);
        told(answer, &self.rt, self.path.as_str(), &mut self.said)
    }
}
