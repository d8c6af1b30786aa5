//! The books of the desk, with what is compiled of them.
ghost use Rattle.std.specs.Prelude.{◌≡◌, ◌+◌, ◌-◌, ◌≤◌, false, true, Ok, Err, length, IfOk, IfErr, OnOk, IsOkAnd, option_copied};
ghost use Rattle.acl_rows.specs.View.{IsViewOf};
ghost use Rattle.acl_changes.specs.Patch.{rows_apart};
ghost use Rattle.acl_compile.specs.Plans.{IsKept};
ghost use Rattle.table_model.specs.Things.{thing_at};
ghost use Rattle.desk_model.specs.DeskTables.{IsSound, IsStamp};
ghost use Rattle.desk_model.specs.Refusals.{is_want_of_memory};
ghost use Rattle.desk_model.specs.Commands.{IsAsked, command_step};
ghost use Rattle.desk_books.specs.CompiledDesk.{IsCompiledOf};
ghost use Rattle.desk_books.specs.Books.{AreKept, desk_in, desk_of};
ghost use Rattle.desk_books.specs.Changes.{desk_after};
ghost use Rattle.desk_books.specs.Planned.{IsPlanned, IsReady, IsPaid, IsRead};

use crate::change::DeskChange;
use crate::lists::{Lists, compiled_of};
use crate::rows::row_plan;
use acl_compile::Compiled;
use acl_rows::RuleView;
use base_rows::Steps;
use bind_book::BindBook;
use bind_book::laws::moment_fits;
use desk_model::{Command, Refusal};
use file_cache::FileCache;
use mud_base::{Direction, Mac, Memory, Moment, Prefix};
use mud_url::MudUrl;
use std::alloc::Global;
use std::marker::Model;
use std::sync::ledger::Ledger;
use table_model::{ClassRow, NameRow, Thing, ThingFault};
use thing_book::ThingBook;
use usage_tables::CachedFile;

/// The lists that the manager keeps, the moment of their last change, and the policies, bindings and
/// rows that are compiled of them. Contracts see all of these.
pub struct DeskBooks {
    alloc: Global,
    lists: Lists,
    compiled: Compiled,
    stamp: Option<Moment>,
}

impl Drop for DeskBooks {
    fn drop(self) {
        let DeskBooks {
            alloc: _,
            lists: _,
            compiled: _,
            stamp: _,
        } = self;
    }
}

impl Model for DeskBooks {
    ghost use Rattle.desk_books.specs.Books.{Books, books_with, AreKept};

    ghost Value = { Books };

    ghost view = { λ b. books_with b.lists b.compiled b.stamp };

    ghost invariant = { λ b. AreKept (books_with b.lists b.compiled b.stamp) };
}

impl DeskBooks {
    /// The books with these lists and this moment of their last change, and the rows that follow
    /// from them.
    pub fn of(
        alloc: Global,
        things: ThingBook,
        files: FileCache,
        binds: BindBook,
        stamp: Option<Moment>,
    ) -> Result<DeskBooks, Memory>
        ensures { IfOk result (λ books. desk_of books ≡ desk_in things files binds stamp) }
    {
        stamp_fits(&stamp);
        let compiled = compiled_of(alloc, &things, &files, &binds)?;
        Ok(DeskBooks::made(alloc, things, files, binds, compiled, stamp))
    }

    /// The books with what is compiled of them.
    fn made(
        alloc: Global,
        things: ThingBook,
        files: FileCache,
        binds: BindBook,
        compiled: Compiled,
        stamp: Option<Moment>,
    ) -> DeskBooks
        requires { AreKept (record { things = things; files = files; binds = binds; compiled = compiled; stamp = stamp }) }
        ensures { result ≡ record { things = things; files = files; binds = binds; compiled = compiled; stamp = stamp } }
    {
        DeskBooks {
            alloc,
            lists: Lists {
                things,
                files,
                binds,
            },
            compiled,
            stamp,
        }
    }

    /// Plans a command at a moment: in its book, in the compiled rows, and the batch by which it is
    /// kept. All stays as it is, whatever the answer; only there may be more room. A refusal is that
    /// of the command's book, or for want of memory. A name that is observed is a host name in lower
    /// case, and its seconds are from 1 to 2,147,483,647; a class by URI that is bound has 1 to 255
    /// octets from 21 to 7E hex.
    pub fn plan<L: Ledger>(
        &mut self,
        command: Command,
        now: Moment,
        steps: &mut Steps<L>,
    ) -> Result<DeskChange, Refusal>
        requires { IsAsked command }
        ensures same { desk_of self.new ≡ desk_of self.old }
        ensures kept { IsKept self.old.compiled self.new.compiled }
        ensures ok { IfOk result (λ change. IsOkAnd (command_step (desk_of self.old) now command) (λ after. IsPlanned after self.new change)) }
        ensures err { IfErr result (λ refusal. is_want_of_memory refusal ≡ false → command_step (desk_of self.old) now command ≡ Err refusal) }
        ensures steps { IsPaid (command_step (desk_of self.old) now command) self.old (steps.new - steps.old) }
        ensures read { OnOk result (IsRead (command_step (desk_of self.old) now command) self.old (steps.new - steps.old)) }
    {
        moment_fits(now);
        let change = self.lists.plan(command, now)?;
        let rows = row_plan(&self.lists.files, &mut self.compiled, &change, steps);
        let rows = match or_memory(rows) {
            Ok(rows) => rows,
            Err(refusal) => {
                drop(change);
                return Err(refusal);
            }
        };
        or_memory(DeskChange::made(self.alloc, change, rows, self.stamp, now))
    }

    /// Makes the change that was planned last, where nothing was committed since. It takes no
    /// memory, and one step for each compiled row and each binding that it puts in or takes away.
    pub fn commit<L: Ledger>(&mut self, change: DeskChange, steps: &mut Steps<L>)
        requires { IsReady self.old change }
        ensures desk { desk_of self.new ≡ desk_after change (desk_of self.old) }
        ensures counted { steps.new ≡ steps.old + length change.rows.rows + length change.rows.bindings }
        ensures most { length change.rows.rows ≤ rows_apart self.old.compiled.rows self.new.compiled.rows }
    {
        let DeskChange {
            outcome: _,
            change,
            rows,
            batch: _,
            stamp,
        } = change;
        self.lists.commit(change);
        self.compiled.commit(rows, steps);
        self.stamp = stamp;
    }

    /// The Things, in the order of their hardware addresses.
    pub fn things(&self) -> &[Thing]
        ensures { result.now ≡ (desk_of self.now).tables.things }
    {
        self.lists.things.things()
    }

    /// The usage files that are held, in the order of their URLs.
    pub fn files(&self) -> &[CachedFile]
        ensures { result.now ≡ (desk_of self.now).files }
    {
        self.lists.files.files()
    }

    /// The classes: those by URI, and then those by MUD URL, in the order of their texts.
    pub fn classes(&self) -> &[ClassRow]
        ensures { result.now ≡ (desk_of self.now).tables.classes }
    {
        self.lists.binds.classes()
    }

    /// The local networks, in order, each once.
    pub fn locals(&self) -> &[Prefix]
        ensures { result.now ≡ (desk_of self.now).tables.locals }
    {
        self.lists.binds.locals()
    }

    /// The names, in the order of their octets.
    pub fn names(&self) -> &[NameRow]
        ensures { result.now ≡ (desk_of self.now).tables.names }
    {
        self.lists.binds.names()
    }

    /// The moment of the last change, where there was one.
    pub fn stamp(&self) -> Option<Moment>
        ensures { result ≡ (desk_of self.now).stamp }
    {
        self.stamp
    }

    /// The Thing of a hardware address.
    pub fn thing_at(&self, mac: Mac) -> Option<&Thing>
        ensures { option_copied result ≡ thing_at mac (desk_of self.now).tables.things }
    {
        self.lists.things.thing_at(mac)
    }

    /// The book of Things.
    pub fn thing_book(&self) -> &ThingBook
        ensures { result.now ≡ self.now.things }
    {
        &self.lists.things
    }

    /// The policies, bindings and rows that are compiled of the lists.
    pub fn compiled(&self) -> &Compiled
        ensures value { result.now ≡ self.now.compiled }
        ensures sound { IsSound (desk_of self.now) }
        ensures of { IsCompiledOf (desk_of self.now) self.now.compiled }
    {
        &self.compiled
    }

    /// What a ruling on packets with a Thing of this URL on this side reads.
    pub fn view(&self, url: &MudUrl, side: Direction) -> RuleView<'_>
        ensures view { IsViewOf self.now.compiled.slots self.now.compiled.rows url.now side result }
        ensures of { IsCompiledOf (desk_of self.now) self.now.compiled }
    {
        self.compiled.view(url, side)
    }
}

/// A stamp is a moment.
fn stamp_fits(stamp: &Option<Moment>)
    ensures { IsStamp stamp.now }
{
    if let Some(moment) = stamp {
        let _seconds = moment.seconds();
    }
}

/// Want of memory, as the refusal of a command.
#[tactic(auto, unfolding(desk_model::specs::Refusals::is_want_of_memory))]
fn or_memory<T>(made: Result<T, Memory>) -> Result<T, Refusal>
    ensures ok { IfOk result (λ value. made ≡ Ok value) }
    ensures err { IfErr result (λ refusal. is_want_of_memory refusal ≡ true) }
{
    match made {
        Ok(value) => Ok(value),
        Err(Memory) => Err(Refusal::Things(ThingFault::Memory)),
    }
}
