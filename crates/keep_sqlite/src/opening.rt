//! The first `open` of a database: its table is found or made.
ghost use Rattle.std.specs.Prelude.{◌≡◌, false, IfOk, IfErr, IsTrue, OnErr, OnOk};
ghost use Rattle.sqlite.specs.Held.{state};
ghost use Rattle.sqlite.specs.State.{HasCleanDisk, Survives};
ghost use Rattle.keep_sqlite.specs.Table.{no_schema};
ghost use Rattle.keep_sqlite.specs.Rows.{items_of, AreMadeTrees, HoldsItems, MayHold};
ghost use Rattle.keep_sqlite.specs.Batches.{Makes, Stays};
ghost use Rattle.keep_sqlite.specs.Refused.{FindsOrMakes, IsUnread, RefusesOpening, RefusesStatement};

use crate::listing::{list, test_rowids};
use crate::refusal::{Refusal, refusal_of};
use crate::schema::{is_blank, is_ours};
use mud_base::Listed;
use mud_world::Item;
use sqlite::{Alter, Connection, Error};
use std::alloc::Global;

/// The items of a database in which the table is found, or made where there is no table. Any other
/// table is a failure.
pub(crate) fn find<S: Alter>(
    alloc: Global,
    connection: &mut Connection<S>,
) -> Result<Listed<Item>, Refusal>
    requires autocommit { (state S.Store connection.old).in_transaction ≡ false }
    requires settled { IsTrue (state S.Store connection.old).is_open
        → (state S.Store connection.old).now ≡ (state S.Store connection.old).committed }
    ensures crash { Survives (state S.Store connection.old) (state S.Store connection.new)
        (AreMadeTrees (state S.Store connection.old).now) }
    ensures makes { HasCleanDisk (state S.Store connection.new)
        → Makes (state S.Store connection.old) (state S.Store connection.new) }
    ensures ok { HasCleanDisk (state S.Store connection.new)
        → IfOk result (λ items. IsTrue (state S.Store connection.new).is_open
        × HoldsItems (state S.Store connection.new).now
        × (items ≡ items_of (state S.Store connection.new).now)) }
    ensures refused { HasCleanDisk (state S.Store connection.new)
        → IfErr result (IsUnread (RefusesOpening S.Store connection.old connection.new) (MayHold false (state S.Store connection.old).now)) }
{
    if let Err(error) = create_if_blank(connection) {
        return Err(refusal_of(error));
    }
    if !is_ours(alloc, connection.schema())? {
        return Err(Refusal::NoStore);
    }
    test_rowids(alloc, connection)?;
    list(alloc, connection)
}

/// Makes the table where the database has no table.
fn create_if_blank<S: Alter>(connection: &mut Connection<S>) -> Result<(), Error>
    requires autocommit { (state S.Store connection.old).in_transaction ≡ false }
    requires settled { IsTrue (state S.Store connection.old).is_open
        → (state S.Store connection.old).now ≡ (state S.Store connection.old).committed }
    ensures crash { Survives (state S.Store connection.old) (state S.Store connection.new)
        (AreMadeTrees (state S.Store connection.old).now) }
    ensures makes { HasCleanDisk (state S.Store connection.new)
        → Makes (state S.Store connection.old) (state S.Store connection.new) }
    ensures found { HasCleanDisk (state S.Store connection.new)
        → OnOk result (FindsOrMakes S.Store connection.old connection.new) }
    ensures refused { HasCleanDisk (state S.Store connection.new)
        → IfErr result (RefusesStatement (state S.Store connection.old) (state S.Store connection.new)) }
{
    if is_blank(connection.schema()) {
        create(connection)?;
    }
    Ok(())
}

/// Makes the table.
fn create<S: Alter>(connection: &mut Connection<S>) -> Result<(), Error>
    requires blank { (state S.Store connection.old).now.schema ≡ no_schema }
    requires autocommit { (state S.Store connection.old).in_transaction ≡ false }
    ensures crash { Survives (state S.Store connection.old) (state S.Store connection.new)
        (AreMadeTrees (state S.Store connection.old).now) }
    ensures ok { HasCleanDisk (state S.Store connection.new)
        → OnOk result (Makes (state S.Store connection.old) (state S.Store connection.new)) }
    ensures made { HasCleanDisk (state S.Store connection.new)
        → OnOk result (IsTrue (state S.Store connection.new).is_open × HoldsItems (state S.Store connection.new).now) }
    ensures err { HasCleanDisk (state S.Store connection.new)
        → OnErr result (Stays (state S.Store connection.old) (state S.Store connection.new)) }
    ensures refused { HasCleanDisk (state S.Store connection.new)
        → IfErr result (RefusesStatement (state S.Store connection.old) (state S.Store connection.new)) }
{
    connection.execute(
        "CREATE TABLE item (kind INTEGER NOT NULL, name BLOB NOT NULL, body BLOB NOT NULL, PRIMARY KEY (kind, name)) STRICT",
        &[],
    )?;
    Ok(())
}
