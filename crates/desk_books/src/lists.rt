//! The three books, and the plan of a command in one of them.
ghost use Rattle.std.specs.Prelude.{◌≡◌, ℕ, Option, IfOk, IfErr};
ghost use Rattle.table_model.specs.ThingCommands.{ThingStep};
ghost use Rattle.table_model.specs.BindCommands.{BindStep};
ghost use Rattle.usage_tables.specs.FileCommands.{FileStep};
ghost use Rattle.thing_book.specs.Planned as thing;
ghost use Rattle.file_cache.specs.Planned as file;
ghost use Rattle.bind_book.specs.Plans as bind;
ghost use Rattle.bind_book.specs.Book.{IsRefusal as IsBindRefusal};
ghost use Rattle.desk_model.specs.DeskTables.{DeskTables, IsStamp};
ghost use Rattle.desk_model.specs.Commands.{IsAsked, command_step, by_things, by_files, by_binds};
ghost use Rattle.desk_books.specs.declared.lists.Lists.{Lists as ListsValue};
ghost use Rattle.desk_books.specs.Books.{AreKept, desk_with};
ghost use Rattle.desk_books.specs.InBooks.{IsAnswerIn};

use crate::change::BookChange;
use crate::compile;
use acl_compile::Compiled;
use bind_book::{BindBook, BindChange};
use desk_model::{Command, Refusal};
use file_cache::{CacheChange, FileCache};
use mud_base::{Memory, Moment};
use std::alloc::Global;
use table_model::{BindFault, ThingFault};
use thing_book::{ThingBook, ThingChange};
use usage_tables::CacheFault;

/// The three books.
#[derive(Drop)]
pub struct Lists {
    pub(crate) things: ThingBook,
    pub(crate) files: FileCache,
    pub(crate) binds: BindBook,
}

impl Lists {
    /// Plans a command in its book, which leaves all lists as they are.
    pub(crate) fn plan(&mut self, command: Command, now: Moment) -> Result<BookChange, Refusal>
        requires { IsAsked command }
        ensures same { (stamp : Option ℕ) → desk_with self.new stamp ≡ desk_with self.old stamp }
        ensures planned { (stamp : Option ℕ) → IsAnswerIn (desk_with self.old stamp) now (command_step (desk_with self.old stamp) now command) self.new result }
    {
        match command {
            Command::HearUrl(mac, url) => of_things(self.things.plan_url(mac, url)),
            Command::HearLease(mac, addr, seconds) => of_things(
                self.things.plan_lease(mac, addr, seconds, now, true),
            ),
            Command::Move(mac, url) => of_things(self.things.plan_move(mac, url)),
            Command::Remove(mac) => of_things(self.things.plan_remove(mac)),
            Command::Hold(mac) => of_things(self.things.plan_hold(mac)),
            Command::Release(mac) => of_things(self.things.plan_release(mac)),
            Command::Lease(mac, addr, seconds) => of_things(
                self.things.plan_lease(mac, addr, seconds, now, false),
            ),
            Command::EndLease(addr) => of_things(self.things.plan_end(addr)),
            Command::Import(octets, fetched) => of_files(
                self.files.plan_import(octets.octets(), fetched),
            ),
            Command::Verdict(url, digest, verdict) => of_files(
                self.files.plan_verdict(&url, digest.octets(), verdict),
            ),
            Command::Revoke(url) => of_files(self.files.plan_revoke(&url)),
            Command::Bind(class, addr) => of_binds(self.binds.plan_bind(&class, addr)),
            Command::Unbind(class, addr) => of_binds(self.binds.plan_unbind(&class, addr)),
            Command::Locals(prefixes) => of_binds(self.binds.plan_locals(prefixes.as_slice())),
            Command::Observe(name, addr, seconds) => of_binds(
                self.binds.plan_observe(name.octets(), addr, seconds, now),
            ),
        }
    }
}

/// The rows that follow from the lists of three books.
pub(crate) fn compiled_of(
    alloc: Global,
    things: &ThingBook,
    files: &FileCache,
    binds: &BindBook,
) -> Result<Compiled, Memory>
    ensures { IfOk result (λ compiled. (stamp : Option ℕ) → IsStamp stamp
        → AreKept (record { things = things.now; files = files.now; binds = binds.now; compiled = compiled; stamp = stamp })) }
{
    let _locals = binds.locals();
    let compiled = compile(
        alloc,
        things.things(),
        binds.classes(),
        binds.names(),
        files.files(),
    )?;
    Ok(compiled)
}

impl Lists {
    ghost use Rattle.desk_books.specs.Changes.{with_change};
    ghost use Rattle.desk_books.specs.Planned.{CanCommit};

    /// Makes a change that was planned, where nothing was committed since.
    #[tactic(auto, unfolding(crate::specs::Changes::with_change, desk_model::specs::DeskTables::with_things, desk_model::specs::DeskTables::with_files, desk_model::specs::DeskTables::with_desk_binds, table_model::specs::Tables::binds_of, table_model::specs::Tables::with_binds))]
    pub(crate) fn commit(&mut self, change: BookChange)
        requires { CanCommit change self.old.things self.old.files self.old.binds }
        ensures { (stamp : Option ℕ) → desk_with self.new stamp ≡ with_change change (desk_with self.old stamp) }
    {
        match change {
            BookChange::Things(change) => self.things.commit(change),
            BookChange::Files(change) => self.files.commit(change),
            BookChange::Binds(change) => self.binds.commit(change),
        }
    }
}

/// The change of Things that was planned, or the refusal.
#[tactic(auto, using(crate::proofs::Asked::thing_refused))]
fn of_things(planned: Result<ThingChange, ThingFault>) -> Result<BookChange, Refusal>
    ensures { (desk : DeskTables) (now : ℕ) (step : ThingStep) (lists : ListsValue)
        → IfOk planned (thing.IsPlanOf step lists.things) → IfErr planned (thing.IsRefusal step)
        → IsAnswerIn desk now (by_things desk now step) lists result }
{
    match planned {
        Ok(change) => Ok(BookChange::Things(change)),
        Err(fault) => Err(Refusal::Things(fault)),
    }
}

/// The change of files that was planned, or the refusal.
#[tactic(auto, using(crate::proofs::Asked::file_refused))]
fn of_files(planned: Result<CacheChange, CacheFault>) -> Result<BookChange, Refusal>
    ensures { (desk : DeskTables) (now : ℕ) (step : FileStep) (lists : ListsValue)
        → IfOk planned (file.IsPlanOf step lists.files)
        → IfErr planned (file.IsRefusal step)
        → IsAnswerIn desk now (by_files desk now step) lists result }
{
    match planned {
        Ok(change) => Ok(BookChange::Files(change)),
        Err(fault) => Err(Refusal::Files(fault)),
    }
}

/// The change of classes, local networks and names that was planned, or the refusal.
#[tactic(auto, using(crate::proofs::Asked::bind_refused))]
fn of_binds(planned: Result<BindChange, BindFault>) -> Result<BookChange, Refusal>
    ensures { (desk : DeskTables) (now : ℕ) (step : BindStep) (lists : ListsValue)
        → IfOk planned (bind.IsPlanOf step lists.binds)
        → IfErr planned (IsBindRefusal step)
        → IsAnswerIn desk now (by_binds desk now step) lists result }
{
    match planned {
        Ok(change) => Ok(BookChange::Binds(change)),
        Err(fault) => Err(Refusal::Binds(fault)),
    }
}
