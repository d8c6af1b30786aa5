//! A keeper over a connection.
ghost use Rattle.std.specs.Prelude.{◌≡◌, ◌⊎◌, true, false, IsTrue, IfOk, IfErr, OnOk, OnErr};
ghost use Rattle.mud_world.specs.Calls.{counted};
ghost use Rattle.mud_world.specs.Causes.{Counts};
ghost use Rattle.mud_world.specs.Items.{is_batch, put_all};
ghost use Rattle.sqlite.specs.Held.{state};
ghost use Rattle.sqlite.specs.State.{HasCleanDisk};
ghost use Rattle.keep_sqlite.specs.Refusals.{has_failed};
ghost use Rattle.keep_sqlite.specs.Refused.{IsRefused, GivesNoItems};
ghost use Rattle.keep_sqlite.specs.Rows.{items_of, HoldsItems, MayMake};
ghost use Rattle.keep_sqlite.specs.Telling.{database, told, IsUp, Leaves, MayBeLeft, MayLeave, MayLeaveMade, Tells};

use crate::batch;
use crate::opening::find;
use crate::refusal::{Refusal, count, fault_of, refusal_of};
use mud_base::Listed;
use mud_world::{Item, KeepFault, Keeper, Put};
use sqlite::{Alter, Connection};
use std::alloc::Global;
use std::marker::Model;

/// A keeper over a connection to a database. Its items are the rows of one table, and a batch is
/// one transaction.
#[derive(Drop)]
pub struct SqliteKeeper<S: Alter + Drop> {
    pub(crate) connection: Connection<S>,
    /// Whether an `open` has answered Ok.
    has_opened: bool,
    /// How often a call has failed.
    faults: u64,
}

impl<S: Alter + Drop> Model for SqliteKeeper<S> {
    ghost use Rattle.keep_sqlite.specs.Telling.{view_code, IsKept, KeeperView};

    ghost Value = { KeeperView S };

    ghost coded = { view_code S.code };

    ghost view = { λ keeper. record {
      connection = keeper.connection;
      has_opened = keeper.has_opened;
      faults = keeper.faults;
    } };

    ghost invariant = { λ keeper. IsKept S.Store keeper.connection keeper.has_opened };
}

impl<S: Alter + Drop> SqliteKeeper<S> {
    /// A keeper over this connection, whose items aren't read yet. It takes no memory. While a
    /// transaction is begun on the connection, `open` fails.
    pub fn adopt(connection: Connection<S>) -> SqliteKeeper<S>
        ensures connection { result.connection ≡ connection }
        ensures unopened { result.has_opened ≡ false }
        ensures faults { result.faults ≡ 0 }
    {
        SqliteKeeper {
            connection,
            has_opened: false,
            faults: 0,
        }
    }

    /// The connection.
    pub fn give_back(self) -> Connection<S>
        ensures { result ≡ self.connection }
    {
        self.connection
    }

    /// How often a call has failed. A count that has reached the last u64 stays there.
    pub fn faults(&self) -> u64
        ensures { result ≡ self.now.faults }
    {
        self.faults
    }

    /// Whether an `open` has answered Ok. Where the connection is up, the database then holds items.
    pub(crate) fn has_opened(&self) -> bool
        ensures value { result ≡ self.now.has_opened }
        ensures holds { IsTrue self.now.has_opened → IsUp S.Store self.now.connection
            → HoldsItems (database S.Store self.now) }
    {
        self.has_opened
    }

    /// The items: [`Keeper::open`].
    pub fn read(&mut self, alloc: Global) -> Result<Listed<Item>, Refusal>
        ensures items { Tells S.Store self.new → IfOk result (λ list. list ≡ told S.Store self.new) }
        ensures same { Tells S.Store self.new → told S.Store self.new ≡ told S.Store self.old }
        ensures told { Tells S.Store self.new → Tells S.Store self.old }
        ensures tells { HasCleanDisk (state S.Store self.new.connection) → OnOk result (Tells S.Store self.new) }
        ensures opened { OnOk result (self.new.has_opened ≡ true) }
        ensures still { OnErr result (self.new.has_opened ≡ self.old.has_opened) }
        ensures opens { IsUp S.Store self.new.connection → IsUp S.Store self.old.connection }
        ensures cause { Counts (has_failed result) self.old.faults self.new.faults }
        ensures count { self.new.faults ≡ counted (has_failed result) self.old.faults }
        // While the disk gives back what was written, an Err is want of memory or what the database answered, or
        // a transaction was begun before, or the database holds no items and isn't one without a table.
        ensures refused { HasCleanDisk (state S.Store self.new.connection)
            → IfErr result (GivesNoItems S.Store self.old self.new) }
        // An Ok says that the database has our table and no other, and that each row is an item.
        ensures table { Tells S.Store self.new → OnOk result (HoldsItems (database S.Store self.new)) }
        // Whatever it answers, it made the table in a database with no table, or changed nothing.
        ensures kept { IsUp S.Store self.new.connection
            → MayMake (database S.Store self.old) (database S.Store self.new) }
        // At each return a crash leaves what it could leave before or, where there was no table, the table
        // without an item,
        ensures crash { MayLeaveMade S.Store self.old self.new }
        // and after Ok the items that it answered.
        ensures after { Tells S.Store self.new
            → OnOk result (Leaves S.Store self.new (told S.Store self.new)) }
    {
        let answer = self.list_items(alloc);
        count(&answer, &mut self.faults);
        answer
    }

    /// The items, with no failure counted.
    fn list_items(&mut self, alloc: Global) -> Result<Listed<Item>, Refusal>
        ensures items { HasCleanDisk (state S.Store self.new.connection)
            → IfOk result (λ list. HoldsItems (database S.Store self.new)
            × (list ≡ items_of (database S.Store self.new))) }
        ensures open { HasCleanDisk (state S.Store self.new.connection)
            → OnOk result (IsTrue (state S.Store self.new.connection).is_open) }
        ensures opened { OnOk result (self.new.has_opened ≡ true) }
        ensures still { OnErr result (self.new.has_opened ≡ self.old.has_opened) }
        ensures faults { self.new.faults ≡ self.old.faults }
        ensures opens { IsUp S.Store self.new.connection → IsUp S.Store self.old.connection }
        ensures held { IsUp S.Store self.new.connection → IsTrue self.old.has_opened
            → HoldsItems (database S.Store self.old) }
        ensures kept { IsUp S.Store self.new.connection
            → MayMake (database S.Store self.old) (database S.Store self.new) }
        ensures crash { MayLeaveMade S.Store self.old self.new }
        ensures left { IsUp S.Store self.new.connection
            → OnOk result ((state S.Store self.new.connection).committed ≡ database S.Store self.new) }
        ensures refused { HasCleanDisk (state S.Store self.new.connection)
            → IfErr result (GivesNoItems S.Store self.old self.new) }
    {
        // Within a transaction the items would be some that aren't committed.
        if !self.connection.is_autocommit() {
            return Err(Refusal::Other);
        }
        let items = find(alloc, &mut self.connection)?;
        self.has_opened = true;
        Ok(items)
    }

    /// Does the puts in order, all of them or, after an error, none, also over a crash:
    /// [`Keeper::apply`].
    pub fn keep(&mut self, batch: &[Put]) -> Result<(), Refusal>
        requires opened { IsTrue self.old.has_opened }
        requires batch { IsTrue (is_batch batch.now) }
        ensures told { Tells S.Store self.new → Tells S.Store self.old }
        ensures tells { HasCleanDisk (state S.Store self.new.connection) → OnOk result (Tells S.Store self.new) }
        ensures ok { Tells S.Store self.new
            → OnOk result (told S.Store self.new ≡ put_all (told S.Store self.old) batch.now) }
        ensures err { Tells S.Store self.new
            → OnErr result (told S.Store self.new ≡ told S.Store self.old) }
        ensures opened { self.new.has_opened ≡ self.old.has_opened }
        ensures cause { Counts (has_failed result) self.old.faults self.new.faults }
        ensures count { self.new.faults ≡ counted (has_failed result) self.old.faults }
        // While the disk gives back what was written, an Err is what the database answered, or a transaction was
        // begun before.
        ensures refused { HasCleanDisk (state S.Store self.new.connection)
            → IfErr result (IsRefused S.Store self.old.connection batch.now) }
        // At each return a crash leaves what it could leave before, or the items after the whole batch,
        ensures crash { MayLeave S.Store self.old self.new (put_all (items_of (database S.Store self.old)) batch.now) }
        // and after Ok the items after the batch.
        ensures after { Tells S.Store self.new
            → OnOk result (Leaves S.Store self.new (told S.Store self.new)) }
        // No transaction is begun behind it, but where one was before: then nothing was done.
        ensures ended { (self.new.connection ≡ self.old.connection) ⊎ (self.new.connection.in_transaction ≡ false) }
    {
        let answer = self.put_in(batch);
        count(&answer, &mut self.faults);
        answer
    }

    /// Does the puts of a batch, with no failure counted.
    fn put_in(&mut self, batch: &[Put]) -> Result<(), Refusal>
        requires opened { IsTrue self.old.has_opened }
        requires batch { IsTrue (is_batch batch.now) }
        ensures opens { IsUp S.Store self.new.connection → IsUp S.Store self.old.connection }
        ensures held { IsUp S.Store self.new.connection → HoldsItems (database S.Store self.old) }
        ensures open { HasCleanDisk (state S.Store self.new.connection)
            → OnOk result (IsTrue (state S.Store self.new.connection).is_open) }
        ensures ok { IsUp S.Store self.new.connection
            → OnOk result (items_of (database S.Store self.new) ≡ put_all (items_of (database S.Store self.old)) batch.now) }
        ensures err { IsUp S.Store self.new.connection
            → OnErr result (database S.Store self.new ≡ database S.Store self.old) }
        ensures opened { self.new.has_opened ≡ self.old.has_opened }
        ensures faults { self.new.faults ≡ self.old.faults }
        ensures refused { HasCleanDisk (state S.Store self.new.connection)
            → IfErr result (IsRefused S.Store self.old.connection batch.now) }
        ensures crash { MayLeave S.Store self.old self.new (put_all (items_of (database S.Store self.old)) batch.now) }
        ensures left { IsUp S.Store self.new.connection
            → OnOk result ((state S.Store self.new.connection).committed ≡ database S.Store self.new) }
        ensures ended { (self.new.connection ≡ self.old.connection) ⊎ (self.new.connection.in_transaction ≡ false) }
    {
        match batch::keep(&mut self.connection, batch) {
            Ok(()) => Ok(()),
            Err(error) => Err(refusal_of(error)),
        }
    }
}

impl<S: Alter + Drop> Keeper for SqliteKeeper<S> {
    ghost tells = { Tells S.Store };

    ghost items = { told S.Store };

    ghost opened = { λ keeper. keeper.has_opened };

    ghost left = { MayBeLeft S.Store };

    ghost faults = { λ keeper. keeper.faults };

    #[tactic(auto, using(crate::proofs::Lookups::items_ascend))]
    fn open(&mut self, alloc: Global) -> Result<Listed<Item>, KeepFault> {
        match self.read(alloc) {
            Ok(items) => Ok(items),
            Err(refusal) => Err(fault_of(refusal)),
        }
    }

    #[tactic(auto, using(crate::proofs::Lookups::items_ascend))]
    fn apply(&mut self, batch: &[Put]) -> Result<(), KeepFault> {
        match self.keep(batch) {
            Ok(()) => Ok(()),
            Err(refusal) => Err(fault_of(refusal)),
        }
    }
}
