//! Keeping a change.
ghost use Rattle.std.specs.Prelude.{◌≡◌, ◌≢◌, ◌⊎◌, List, [], IsTrue, OnOk, OnErr};
ghost use Rattle.mud_world.specs.Kept.{faults_of, Tells, kept_items, IsOpen, Rests};
ghost use Rattle.mud_world.specs.Causes.{Counts};
ghost use Rattle.mud_world.specs.Items.{has_failed, is_batch, put_all};
ghost use Rattle.mud_world.specs.declared.item.Item.{Item};

use mud_world::{KeepFault, Keeper, Put};

/// Does the puts of a change in the keeper, at once; where there are none, it isn't
/// called.
pub(crate) fn keep_batch<K: Keeper>(keeper: &mut K, batch: &[Put]) -> Result<(), KeepFault>
    requires opened { IsOpen ⟦<K as Keeper>⟧ keeper.old }
    requires batch { batch.now ≢ [] → IsTrue (is_batch batch.now) }
    ensures told { Tells ⟦<K as Keeper>⟧ keeper.new → Tells ⟦<K as Keeper>⟧ keeper.old }
    ensures ok { Tells ⟦<K as Keeper>⟧ keeper.new → OnOk result (kept_items ⟦<K as Keeper>⟧ keeper.new ≡ put_all (kept_items ⟦<K as Keeper>⟧ keeper.old) batch.now) }
    ensures err { Tells ⟦<K as Keeper>⟧ keeper.new → OnErr result (kept_items ⟦<K as Keeper>⟧ keeper.new ≡ kept_items ⟦<K as Keeper>⟧ keeper.old) }
    ensures some { OnErr result (batch.now ≢ []) }
    ensures none { batch.now ≡ [] → keeper.new ≡ keeper.old }
    ensures crash { (list : List Item) → K.left keeper.new list → K.left keeper.old list
        ⊎ (Tells ⟦<K as Keeper>⟧ keeper.old × (list ≡ put_all (kept_items ⟦<K as Keeper>⟧ keeper.old) batch.now)) }
    ensures rests { OnOk result (batch.now ≢ [] → Rests ⟦<K as Keeper>⟧ keeper.new) }
    ensures opened { IsOpen ⟦<K as Keeper>⟧ keeper.new }
    ensures cause { Counts (has_failed result) (faults_of ⟦<K as Keeper>⟧ keeper.old) (faults_of ⟦<K as Keeper>⟧ keeper.new) }
{
    if batch.is_empty() {
        return Ok(());
    }
    keeper.apply(batch)
}
