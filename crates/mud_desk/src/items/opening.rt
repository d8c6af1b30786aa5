//! A keeper is opened, and its items are read and, where they are of an earlier version, put anew.
ghost use Rattle.std.specs.Prelude.{◌≡◌, ◌⊎◌, List, true, false, IsTrue, IfOk, IfErr, OnOk, OnErr};
ghost use Rattle.std.specs.List.{AllByRecursion};
ghost use Rattle.mud_world.specs.Causes.{Counts};
ghost use Rattle.mud_world.specs.Items.{has_failed, IsOrdered};
ghost use Rattle.mud_base.specs.Numbers.{IsOctets};
ghost use Rattle.table_model.specs.ThingItems.{in_second};
ghost use Rattle.desk_model.specs.DeskTables.{IsSound};
ghost use Rattle.desk_model.specs.Items.{none_kept, items_of, tables_in};
ghost use Rattle.desk_model.specs.Keeping.{KeepsDesk, KeepsSame};
ghost use Rattle.mud_world.specs.Kept.{Rests};
ghost use Rattle.mud_world.specs.declared.item.Item.{Item};
ghost use Rattle.mud_desk.specs.Items.Loaded.{kept_of, loaded_desk};
ghost use Rattle.mud_desk.specs.Items.Opening.{has_keeper_failed, HasOctets, IsFaultOf, IsOfCall, IsPartlyAnew, Leaves, PutsAnew};

use crate::items::fault::OpenFault;
use crate::items::loaded::{Loaded, take_into};
use mud_base::Listed;
use mud_world::{Item, KeepFault, Keeper, Put};
use std::alloc::Global;

/// Opens the keeper and reads its items, in the keeper's order: the lists of the books and
/// the stamp. Where an item is no record, the first such item is answered, and nothing is written.
/// Else each Thing of version 1 is put anew in version 2, and everything else, the stamp too, stays as
/// it is. After a failure the items are as they were or, once that has begun, those of the same desk,
/// of which some Things are put anew. Nothing was taken before.
pub fn open_items<K: Keeper>(
    alloc: Global,
    keeper: &mut K,
    nothing: Loaded,
) -> Result<Loaded, OpenFault>
    requires { kept_of nothing ≡ none_kept }
    ensures opened { OnOk result (K.opened keeper.new ≡ true) }
    ensures still { IsTrue (K.opened keeper.old) → IsTrue (K.opened keeper.new) }
    ensures told { K.tells keeper.new → K.tells keeper.old }
    // What was read is the desk that the keeper's items kept before, it is sound, and is kept now.
    ensures read { K.tells keeper.old → K.tells keeper.new
        → IfOk result (λ loaded. KeepsDesk (K.items keeper.old) (loaded_desk loaded)) }
    ensures sound { IfOk result (λ loaded. IsSound (loaded_desk loaded)) }
    ensures kept { K.tells keeper.new
        → IfOk result (λ loaded. K.items keeper.new ≡ items_of (loaded_desk loaded)) }
    // What a crash leaves then, the next opening finds; after an error that, what a crash could leave
    // before, or the items of the same desk.
    ensures rests { OnOk result (Rests ⟦<K as Keeper>⟧ keeper.new) }
    ensures crash { K.tells keeper.old → OnErr result ((list : List Item) → K.left keeper.new list
        → K.left keeper.old list ⊎ KeepsSame (K.items keeper.old) list) }
    // An item is named where it is the first that is no record, and else the desk isn't opened for a
    // failure of the keeper or for want of memory.
    ensures bad { K.tells keeper.new → IfErr result (IsFaultOf (K.items keeper.new)) }
    ensures left { K.tells keeper.old → K.tells keeper.new
        → IfErr result (Leaves (K.items keeper.old) (K.items keeper.new)) }
    ensures cause { Counts (has_keeper_failed result) (K.faults keeper.old) (K.faults keeper.new) }
{
    let items = opened_items(keeper, alloc)?;
    let loaded = read_items(nothing, items.as_slice())?;
    put_things_anew(keeper, items.as_slice(), &loaded)?;
    Ok(loaded)
}

/// The items of the keeper.
fn opened_items<K: Keeper>(keeper: &mut K, alloc: Global) -> Result<Listed<Item>, KeepFault>
    ensures items { K.tells keeper.new → IfOk result (λ list. list ≡ K.items keeper.new) }
    ensures ordered { K.tells keeper.new → IsOrdered (K.items keeper.new) }
    ensures same { K.tells keeper.new → K.items keeper.new ≡ K.items keeper.old }
    ensures told { K.tells keeper.new → K.tells keeper.old }
    ensures crash { K.tells keeper.old
        → (list : List Item) → K.left keeper.new list → K.left keeper.old list ⊎ (list ≡ K.items keeper.old) }
    ensures rests { OnOk result (Rests ⟦<K as Keeper>⟧ keeper.new) }
    ensures opened { OnOk result (K.opened keeper.new ≡ true) }
    ensures still { OnErr result (K.opened keeper.new ≡ K.opened keeper.old) }
    ensures cause { Counts (has_failed result) (K.faults keeper.old) (K.faults keeper.new) }
{
    keeper.open(alloc)
}

/// Takes all items, where nothing was taken yet, or names the first that is no record.
fn read_items(nothing: Loaded, items: &[Item]) -> Result<Loaded, OpenFault>
    requires { kept_of nothing ≡ none_kept }
    ensures read { IfOk result (λ loaded. tables_in items.now ≡ Ok (loaded_desk loaded)) }
    ensures keeps { IfOk result (λ loaded. KeepsDesk items.now (loaded_desk loaded)) }
    ensures sound { IfOk result (λ loaded. IsSound (loaded_desk loaded)) }
    ensures bad { IfErr result (IsFaultOf items.now) }
    ensures told { has_keeper_failed result ≡ false }
{
    bodies_fit(items);
    match take_into(nothing, items)? {
        Ok(loaded) => Ok(loaded),
        Err(index) => {
            let item = &items[index];
            Err(OpenFault::BadItem(item.kind, item.key.copy()?))
        }
    }
}

/// The elements of the body of each item are octets.
fn bodies_fit(items: &[Item])
    ensures { AllByRecursion HasOctets items.now }
{
    for item in items {
        octets_fit(item.body.octets());
    }
}

/// The elements of an octet string are octets.
fn octets_fit(octets: &[u8])
    ensures { IsOctets octets.now }
{
    let _octets = octets;
}

/// Puts each Thing anew whose item isn't that of version 2. The keeper's items are these, and what was
/// taken of them.
fn put_things_anew<K: Keeper>(
    keeper: &mut K,
    list: &[Item],
    loaded: &Loaded,
) -> Result<(), OpenFault>
    requires opened { IsTrue (K.opened keeper.old) }
    requires items { K.tells keeper.old → K.items keeper.old ≡ list.now }
    requires ordered { K.tells keeper.old → IsOrdered (K.items keeper.old) }
    requires rests { Rests ⟦<K as Keeper>⟧ keeper.old }
    requires read { tables_in list.now ≡ Ok (loaded_desk loaded.now) }
    ensures told { K.tells keeper.new → K.tells keeper.old }
    ensures ok { K.tells keeper.new → OnOk result (K.items keeper.new ≡ items_of (loaded_desk loaded.now)) }
    ensures err { K.tells keeper.new → OnErr result (IsPartlyAnew list.now (K.items keeper.new)) }
    ensures rests { OnOk result (Rests ⟦<K as Keeper>⟧ keeper.new) }
    ensures crash { OnErr result ((found : List Item) → K.left keeper.new found
        → K.tells keeper.old × IsPartlyAnew list.now found) }
    ensures call { IfErr result IsOfCall }
    ensures opened { K.opened keeper.new ≡ K.opened keeper.old }
    ensures cause { Counts (has_keeper_failed result) (K.faults keeper.old) (K.faults keeper.new) }
{
    bodies_fit(list);
    for index in 0..loaded.things.things().len() {
        let anew = loaded.things.item_of(index)?;
        put_anew(keeper, &list[index], anew)?;
    }
    Ok(())
}

/// Puts the item of a Thing anew, where it isn't that of version 2 already.
fn put_anew<K: Keeper>(keeper: &mut K, item: &Item, anew: Item) -> Result<(), KeepFault>
    requires opened { IsTrue (K.opened keeper.old) }
    requires anew { anew ≡ in_second item.now }
    requires octets { HasOctets item.now }
    ensures told { K.tells keeper.new → K.tells keeper.old }
    ensures ordered { K.tells keeper.new → IsOrdered (K.items keeper.old) → IsOrdered (K.items keeper.new) }
    ensures ok { K.tells keeper.new → OnOk result (PutsAnew item.now (K.items keeper.old) (K.items keeper.new)) }
    ensures crash { (found : List Item) → K.left keeper.new found
        → K.left keeper.old found ⊎ (K.tells keeper.old × PutsAnew item.now (K.items keeper.old) found) }
    ensures rests { OnOk result (Rests ⟦<K as Keeper>⟧ keeper.old → Rests ⟦<K as Keeper>⟧ keeper.new) }
    ensures err { K.tells keeper.new → OnErr result (K.items keeper.new ≡ K.items keeper.old) }
    ensures opened { K.opened keeper.new ≡ K.opened keeper.old }
    ensures cause { Counts (has_failed result) (K.faults keeper.old) (K.faults keeper.new) }
{
    if anew.body.octets() == item.body.octets() {
        return Ok(());
    }
    keeper.apply(&[Put::Set(anew)])
}
