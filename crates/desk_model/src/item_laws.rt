//! Laws of the items in which the desk is kept, each on a function that does nothing.
ghost use Rattle.std.specs.Prelude.{◌≡◌, ℕ, ◌≤◌, true, List, [], ◌∷◌, ◌++◌, length, Some, Ok, Err};
ghost use Rattle.std.specs.List.{AllByRecursion};
ghost use Rattle.mud_world.specs.declared.item.Item.{Item};
ghost use Rattle.mud_world.specs.declared.item.Put.{Put};
ghost use Rattle.mud_world.specs.declared.item.Put.TheVariants.{Set};
ghost use Rattle.mud_world.specs.Items.{put_one, IsOrdered, IsDifference, ArePutsOf};
ghost use Rattle.item_codec.specs.Kinds.{file_kind, thing_kind};
ghost use Rattle.mud_base.specs.Numbers.{IsOctets};
ghost use Rattle.item_codec.specs.Records.{version_to_in};
ghost use Rattle.table_model.specs.declared.thing.Thing.{Thing};
ghost use Rattle.table_model.specs.Binds.{Binds};
ghost use Rattle.table_model.specs.Tables.{binds_of};
ghost use Rattle.table_model.specs.ThingItems.{thing_items, in_second};
ghost use Rattle.table_model.specs.BindItems.{IsBindPut};
ghost use Rattle.table_model.specs.TakenItems.{bind_items};
ghost use Rattle.usage_tables.specs.declared.cached_file.CachedFile.{CachedFile};
ghost use Rattle.usage_tables.specs.FileItems.{file_items};
ghost use Rattle.desk_model.specs.DeskTables.{DeskTables, IsSound, empty_desk, with_things, with_files, with_desk_binds};
ghost use Rattle.desk_model.specs.Commands.{stamped};
ghost use Rattle.desk_model.specs.Items.{items_of, tables_in, in_second_version, with_stamp_put, IsFirstUnread, IsKeptBy};
ghost use Rattle.desk_model.specs.Keeping.{IsFirstBad, KeepsDesk};

/// A desk and its items.
pub fn desks_are_read_back()
    // A new desk is sound, and has no items.
    ensures empty { IsSound empty_desk × (items_of empty_desk ≡ []) }
    // A sound desk is read back from its items.
    ensures back { (desk : DeskTables) → IsSound desk → tables_in (items_of desk) ≡ Ok desk }
    // What items are read as is sound, and its items are these, in their order and each octet of
    // them, with Things of version 1 put anew in version 2: no others can be read.
    ensures alone { (items : List Item) (desk : DeskTables)
        → AllByRecursion (λ item. IsOctets item.body) items → tables_in items ≡ Ok desk
        → IsSound desk × (items_of desk ≡ in_second_version items) }
    // Where they can't be read, the first item that can't be is answered.
    ensures first { (items : List Item) (item : Item) → tables_in items ≡ Err item
        → IsFirstUnread items item }
    // So items are read as the desk that they keep, and where they keep none, the item that is answered
    // is the first that is no record.
    ensures kept { (items : List Item) (desk : DeskTables)
        → AllByRecursion (λ item. IsOctets item.body) items → tables_in items ≡ Ok desk
        → KeepsDesk items desk }
    ensures read { (items : List Item) (desk : DeskTables) → KeepsDesk items desk
        → tables_in items ≡ Ok desk }
    ensures bad { (items : List Item) (item : Item)
        → AllByRecursion (λ item. IsOctets item.body) items → tables_in items ≡ Err item
        → IsFirstBad items item }
    ensures unread { (items : List Item) (item : Item)
        → AllByRecursion (λ item. IsOctets item.body) items → IsFirstBad items item
        → tables_in items ≡ Err item }
    // The items of a sound desk are in order.
    ensures ordered { (desk : DeskTables) → IsSound desk → IsOrdered (items_of desk) }
{}

/// A change of one list of the desk: what differs in its items, at most two puts, and the stamp's
/// put behind them are a batch that makes of the items of the desk those after the change.
pub fn changes_are_kept_by_one_batch()
    ensures things { (desk : DeskTables) (things : List Thing) (now : ℕ) (puts : List Put)
        → IsDifference (thing_items desk.tables.things) (thing_items things) puts
        → ArePutsOf thing_kind puts → length puts ≤ 2
        → IsKeptBy desk (stamped true now (with_things things desk)) (with_stamp_put now puts) }
    ensures files { (desk : DeskTables) (files : List CachedFile) (now : ℕ) (puts : List Put)
        → IsDifference (file_items desk.files) (file_items files) puts
        → ArePutsOf file_kind puts → length puts ≤ 2
        → IsKeptBy desk (stamped true now (with_files files desk)) (with_stamp_put now puts) }
    // The puts of classes, local networks and names are of the kinds 3 to 5.
    ensures binds { (desk : DeskTables) (binds : Binds) (now : ℕ) (puts : List Put)
        → IsDifference (bind_items (binds_of desk.tables)) (bind_items binds) puts
        → AllByRecursion IsBindPut puts
        → length puts ≤ 2
        → IsKeptBy desk (stamped true now (with_desk_binds binds desk)) (with_stamp_put now puts) }
{}

/// Things of version 1 are put anew in version 2, one after the other.
pub fn things_are_put_anew()
    // An item that is put anew takes the place of the old one.
    ensures put { (xs : List Item) (item : Item) (ys : List Item) → IsOctets item.body
        → IsOrdered (xs ++ item ∷ ys)
        → put_one (xs ++ item ∷ ys) (Set (in_second item)) ≡ xs ++ in_second item ∷ ys }
    // One whose body is of version 2 stays the same.
    ensures newer { (item : Item) (rest : List ℕ) → IsOctets item.body
        → version_to_in 2 item.body ≡ Some (2, rest) → in_second item ≡ item }
    // Where the first items are put anew, and the others aren't yet, the desk is the same.
    ensures read { (xs ys : List Item) (desk : DeskTables)
        → AllByRecursion (λ item. IsOctets item.body) xs → tables_in (xs ++ ys) ≡ Ok desk
        → tables_in (in_second_version xs ++ ys) ≡ Ok desk }
{}
