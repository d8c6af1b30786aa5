//! A batch of puts as one transaction, with a statement for each put.
ghost use Rattle.std.specs.Prelude.{◌≡◌, ◌≤◌, ◌⊎◌, false, true, [], ◌∷◌, length, IsTrue, IfErr, OnOk, OnErr};
ghost use Rattle.mud_world.specs.Items.{put_all};
ghost use Rattle.sqlite.specs.declared.error.Error.TheVariants.{InvalidQuery};
ghost use Rattle.sqlite.specs.Held.{state};
ghost use Rattle.sqlite.specs.State.{HasCleanDisk, Survives};
ghost use Rattle.keep_sqlite.specs.Rows.{items_of, AreTreesOf, HoldsItems};
ghost use Rattle.keep_sqlite.specs.Telling.{IsUp};
ghost use Rattle.keep_sqlite.specs.Batches.{CommitsNothing, LeavesNothing, Puts, Reaches};
ghost use Rattle.keep_sqlite.specs.Refused.{RefusesBatch, RefusesPut};

use mud_base::Bytes;
use mud_world::Put;
use sqlite::{Alter, Connection, Error, Transaction, params};

/// Does the puts of a batch as one transaction: all of them, or none.
pub(crate) fn keep<S: Alter>(connection: &mut Connection<S>, batch: &[Put]) -> Result<(), Error>
    requires batch { 1 ≤ length batch.now }
    requires holds { IsUp S.Store connection.old → HoldsItems (state S.Store connection.old).now }
    ensures crash { Survives (state S.Store connection.old) (state S.Store connection.new)
        (λ trees. IsUp S.Store connection.old × AreTreesOf (put_all (items_of (state S.Store connection.old).now) batch.now) trees) }
    ensures was_open { HasCleanDisk (state S.Store connection.new)
        → IsTrue (state S.Store connection.new).is_open → IsTrue (state S.Store connection.old).is_open }
    ensures ok { HasCleanDisk (state S.Store connection.new)
        → OnOk result (Reaches (record (state S.Store connection.old) { in_transaction = true })
        (record (state S.Store connection.new) { in_transaction = true }) [] batch.now) }
    ensures err { HasCleanDisk (state S.Store connection.new) → IsTrue (state S.Store connection.new).is_open
        → OnErr result ((state S.Store connection.new).now ≡ (state S.Store connection.old).now) }
    ensures left { HasCleanDisk (state S.Store connection.new)
        → OnOk result ((state S.Store connection.new).committed ≡ (state S.Store connection.new).now) }
    // No transaction is begun behind it, but where one was before: then nothing was done.
    ensures ended { (connection.new ≡ connection.old) ⊎ (connection.new.in_transaction ≡ false) }
    ensures refused { HasCleanDisk (state S.Store connection.new) → IfErr result (λ error.
        (IsTrue (state S.Store connection.old).in_transaction × (error ≡ InvalidQuery))
        ⊎ RefusesBatch S.Store (record connection.old { in_transaction = true }) batch.now error) }
{
    if !connection.is_autocommit() {
        return Err(Error::InvalidQuery);
    }
    let mut tx = connection.transaction();
    put_each(&mut tx, batch)?;
    tx.commit()
}

/// Does the puts of a batch, in order.
fn put_each<S: Alter>(tx: &mut Transaction<'_, S>, batch: &[Put]) -> Result<(), Error>
    requires { 1 ≤ length batch.now }
    ensures same_reference { tx.new.conn.ghost_name ≡ tx.old.conn.ghost_name }
    ensures crash { LeavesNothing S.Store tx.old.conn.now tx.new.conn.now }
    ensures kept { CommitsNothing S.Store tx.old.conn.now tx.new.conn.now }
    ensures ok { OnOk result (Puts S.Store tx.old.conn.now tx.new.conn.now batch.now) }
    ensures refused { HasCleanDisk (state S.Store tx.new.conn.now)
        → (IsTrue (state S.Store tx.old.conn.now).is_open → HoldsItems (state S.Store tx.old.conn.now).now)
        → IsTrue (state S.Store tx.old.conn.now).in_transaction
        → IfErr result (RefusesBatch S.Store tx.old.conn.now batch.now) }
{
    'puts: for put in batch {
        put_one(tx, put)?;
    }
    Ok(())
}

/// Does one put.
fn put_one<S: Alter>(tx: &mut Transaction<'_, S>, put: &Put) -> Result<(), Error>
    ensures same_reference { tx.new.conn.ghost_name ≡ tx.old.conn.ghost_name }
    ensures crash { LeavesNothing S.Store tx.old.conn.now tx.new.conn.now }
    ensures kept { CommitsNothing S.Store tx.old.conn.now tx.new.conn.now }
    ensures ok { OnOk result (Puts S.Store tx.old.conn.now tx.new.conn.now (put.now ∷ [])) }
    ensures refused { HasCleanDisk (state S.Store tx.new.conn.now) → IsTrue (state S.Store tx.old.conn.now).in_transaction
        → IfErr result (RefusesPut put.now (state S.Store tx.old.conn.now) (state S.Store tx.new.conn.now)) }
{
    match put {
        Put::Set(item) => set(tx, item.kind, &item.key, &item.body),
        Put::Gone(kind, key) => take_out(tx, *kind, key),
    }
}

/// Puts an item in, instead of the one of its sort key if there is one.
fn set<S: Alter>(
    tx: &mut Transaction<'_, S>,
    kind: u8,
    key: &Bytes,
    body: &Bytes,
) -> Result<(), Error>
    ensures same_reference { tx.new.conn.ghost_name ≡ tx.old.conn.ghost_name }
    ensures crash { LeavesNothing S.Store tx.old.conn.now tx.new.conn.now }
    ensures kept { CommitsNothing S.Store tx.old.conn.now tx.new.conn.now }
    ensures ok { OnOk result (Puts S.Store tx.old.conn.now tx.new.conn.now
        (Put.Set (record { kind = kind; key = key.now; body = body.now }) ∷ [])) }
    ensures refused { HasCleanDisk (state S.Store tx.new.conn.now) → IsTrue (state S.Store tx.old.conn.now).in_transaction
        → IfErr result (RefusesPut (Put.Set (record { kind = kind; key = key.now; body = body.now }))
        (state S.Store tx.old.conn.now) (state S.Store tx.new.conn.now)) }
{
    let _changed = tx.execute(
        "INSERT INTO item (kind, name, body) VALUES (?1, ?2, ?3) ON CONFLICT (kind, name) DO UPDATE SET body = excluded.body",
        params![u32::from(kind), key.octets(), body.octets()],
    )?;
    Ok(())
}

/// Takes out the item of a sort key, if there is one.
fn take_out<S: Alter>(tx: &mut Transaction<'_, S>, kind: u8, key: &Bytes) -> Result<(), Error>
    ensures same_reference { tx.new.conn.ghost_name ≡ tx.old.conn.ghost_name }
    ensures crash { LeavesNothing S.Store tx.old.conn.now tx.new.conn.now }
    ensures kept { CommitsNothing S.Store tx.old.conn.now tx.new.conn.now }
    ensures ok { OnOk result (Puts S.Store tx.old.conn.now tx.new.conn.now (Put.Gone kind key.now ∷ [])) }
    ensures refused { HasCleanDisk (state S.Store tx.new.conn.now) → IsTrue (state S.Store tx.old.conn.now).in_transaction
        → IfErr result (RefusesPut (Put.Gone kind key.now)
        (state S.Store tx.old.conn.now) (state S.Store tx.new.conn.now)) }
{
    let _changed = tx.execute(
        "DELETE FROM item WHERE kind = ?1 AND name = ?2",
        params![u32::from(kind), key.octets()],
    )?;
    Ok(())
}
