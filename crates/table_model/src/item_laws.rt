//! Laws of the items that are read one after the other, each on a function that does nothing.
ghost use Rattle.std.specs.Prelude.{◌≡◌, ◌++◌, List, [], map, Option, Some, None};
ghost use Rattle.std.specs.List.{AllByRecursion};
ghost use Rattle.mud_world.specs.declared.item.Item.{Item};
ghost use Rattle.mud_base.specs.Numbers.{IsOctets};
ghost use Rattle.table_model.specs.declared.thing.Thing.{Thing};
ghost use Rattle.table_model.specs.Things.{IsSoundThings};
ghost use Rattle.table_model.specs.Binds.{Binds, IsSoundBinds};
ghost use Rattle.table_model.specs.ThingItems.{thing_items, in_second, with_thing_item};
ghost use Rattle.table_model.specs.TakenItems.{all_taken, no_binds, bind_items, with_bind_item};

/// Things that are read from their items.
pub fn things_are_taken()
    // Sound Things are read from their items.
    ensures back { (things : List Thing) → IsSoundThings things
        → all_taken with_thing_item [] (thing_items things) ≡ Some things }
    // What is read of items is sound, and the items are its own, each octet of them, but for those of
    // version 1, which say the same as its own.
    ensures alone { (items : List Item) (things : List Thing)
        → AllByRecursion (λ item. IsOctets item.body) items
        → all_taken with_thing_item [] items ≡ Some things
        → IsSoundThings things × (thing_items things ≡ map in_second items) }
{}

/// Classes, local networks and names that are read from their items.
pub fn binds_are_taken()
    // Sound lists are read from their items.
    ensures back { (binds : Binds) → IsSoundBinds binds
        → all_taken with_bind_item no_binds (bind_items binds) ≡ Some binds }
    // What is read of items is sound, and the items are its own, in their order and each octet of
    // them: no others can be read.
    ensures alone { (items : List Item) (binds : Binds)
        → AllByRecursion (λ item. IsOctets item.body) items
        → all_taken with_bind_item no_binds items ≡ Some binds
        → IsSoundBinds binds × (bind_items binds ≡ items) }
{}
