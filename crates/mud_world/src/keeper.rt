//! Keepers: where items are kept from one run to the next.
ghost use Rattle.std.specs.Prelude.{◌≡◌, ◌⊎◌, ℕ, List, Bool, true, IsTrue, IfOk, OnOk, OnErr};
ghost use Rattle.mud_world.specs.Calls.{counted};
ghost use Rattle.mud_world.specs.Causes.{Counts};
ghost use Rattle.mud_world.specs.declared.item.Item.{Item};

use crate::fault::KeepFault;
use crate::item::{Item, Put};
use mud_base::Listed;
use std::alloc::Global;

/// A keeper of items. It counts its failures; the count never falls, and one that has reached the
/// last u64 stays there. Want of memory isn't counted.
pub trait Keeper: Drop {
    ghost use Rattle.mud_world.specs.Items.{has_failed, is_batch, put_all, IsOrdered};

    /// Whether it tells its items now.
    ghost tells: { Self → Type 0 };

    /// Its items where it tells them, ordered by kind and then key, keys distinct.
    ghost items: { Self → List Item };

    /// Whether an `open` has answered Ok.
    ghost opened: { Self → Bool };

    /// A crash at this moment may leave these items, for the next run to find, also where a failure shut
    /// the keeper, which then tells nothing.
    ghost left: { Self → List Item → Type 0 };

    /// How often a call has failed.
    ghost faults: { Self → ℕ };

    /// Its items, ordered by kind and then key, keys distinct. It leaves them as they are, also
    /// after an error and at its first call. A crash behind it leaves what a crash could leave before,
    /// or these items, and after Ok these items.
    fn open(&mut self, alloc: Global) -> Result<Listed<Item>, KeepFault>
        ensures items { tells self.new → IfOk result (λ list. list ≡ items self.new) }
        ensures ordered { tells self.new → IsOrdered (items self.new) }
        ensures same { tells self.new → items self.new ≡ items self.old }
        ensures told { tells self.new → tells self.old }
        ensures crash { tells self.old
            → (list : List Item) → left self.new list → left self.old list ⊎ (list ≡ items self.old) }
        ensures rests { OnOk result ((list : List Item) → left self.new list → tells self.new × (list ≡ items self.new)) }
        ensures opened { OnOk result (opened self.new ≡ true) }
        ensures still { OnErr result (opened self.new ≡ opened self.old) }
        ensures count { faults self.new ≡ counted (has_failed result) (faults self.old) }
        ensures cause { Counts (has_failed result) (faults self.old) (faults self.new) };

    /// Does the puts in order, all of them or, after an error, none. There are 1 to 4 puts, with
    /// distinct kinds and keys. A crash behind it leaves what a crash could leave before, or the items
    /// with the whole batch, and after Ok these.
    fn apply(&mut self, batch: &[Put]) -> Result<(), KeepFault>
        requires opened { IsTrue (opened self.old) }
        requires batch { IsTrue (is_batch batch.now) }
        ensures told { tells self.new → tells self.old }
        ensures ordered { tells self.new → IsOrdered (items self.new) }
        ensures ok { tells self.new → OnOk result (items self.new ≡ put_all (items self.old) batch.now) }
        ensures err { tells self.new → OnErr result (items self.new ≡ items self.old) }
        ensures crash { (list : List Item) → left self.new list
            → left self.old list ⊎ (tells self.old × (list ≡ put_all (items self.old) batch.now)) }
        ensures rests { OnOk result ((list : List Item) → left self.new list → tells self.new × (list ≡ items self.new)) }
        ensures opened { opened self.new ≡ opened self.old }
        ensures count { faults self.new ≡ counted (has_failed result) (faults self.old) }
        ensures cause { Counts (has_failed result) (faults self.old) (faults self.new) };
}
