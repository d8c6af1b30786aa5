//! Laws of the tables, each on a function that does nothing.
ghost use Rattle.std.specs.Prelude.{◌≡◌, ℕ, ◌<◌, ◌≤◌, false, List, ◌&&◌, Option, Some};
ghost use Rattle.mud_base.specs.declared.addr.Addr.{Addr};
ghost use Rattle.mud_base.specs.declared.prefix.Prefix.{Prefix};
ghost use Rattle.mud_base.specs.declared.packet.Direction.{Direction};
ghost use Rattle.mud_base.specs.declared.packet.Fields.{Fields};
ghost use Rattle.acl_model.specs.declared.entry.Selector.{Selector};
ghost use Rattle.acl_model.specs.declared.entry.Policy.{Policy};
ghost use Rattle.acl_model.specs.Match.{near_met};
ghost use Rattle.mud_world.specs.declared.item.Item.{Item};
ghost use Rattle.mud_base.specs.Numbers.{IsOctets};
ghost use Rattle.table_model.specs.declared.thing.Thing.{Thing};
ghost use Rattle.table_model.specs.declared.bind.ClassRow.{ClassRow};
ghost use Rattle.table_model.specs.declared.bind.NameRow.{NameRow};
ghost use Rattle.table_model.specs.Expiries.{for_ever};
ghost use Rattle.table_model.specs.Things.{IsKeptThing};
ghost use Rattle.table_model.specs.Binds.{IsKeptClass, IsKeptName};
ghost use Rattle.table_model.specs.Tables.{Tables, meets, ruling_of};
ghost use Rattle.table_model.specs.Bindings.{bindings_of, selector_met, ruling_by_bindings};
ghost use Rattle.table_model.specs.ThingItems.{thing_item, first_thing_item, thing_in, IsThingItem};
ghost use Rattle.table_model.specs.BindItems.{class_item, class_in, IsClassItem, locals_item, locals_in, IsKeptLocals, IsLocalsItem, name_item, name_in, IsNameItem, stamp_item, stamp_in};

/// The bindings of the tables, with the local networks, say all that a ruling asks of the tables.
pub fn bindings_rule_alike()
    // An address meets a selector by the tables where it does by a live binding of the selector's
    // key; a near selector has no key, and is met by the local networks.
    ensures selectors { (tables : Tables) (now : ℕ) (url : List ℕ) → now < for_ever
        → (a : Addr) (selector : Selector)
        → (selector_met (bindings_of tables) url a now selector && near_met tables.locals a selector)
        ≡ meets tables now url selector a }
    // So both rulings are the same.
    ensures rulings { (tables : Tables) (now : ℕ) (url : List ℕ) (policy : Option Policy)
        (side : Direction) (fields : Fields) (begun : Option Direction) → now < for_ever
        → ruling_by_bindings (bindings_of tables) tables.locals now url policy side fields begun
        ≡ ruling_of tables now url policy side fields begun }
{}

/// Things and their items.
pub fn things_are_read_back()
    // A Thing is read back from its item.
    ensures back { (thing : Thing) → IsKeptThing thing → thing_in (thing_item thing) ≡ Some thing }
    // One that isn't held is read back from the item of version 1 too.
    ensures back_first { (thing : Thing) → IsKeptThing thing → thing.held ≡ false
        → thing_in (first_thing_item thing) ≡ Some thing }
    // An item that reads as a Thing is that Thing's item, each octet of it, or in version 1 the one
    // that says the same.
    ensures alone { (item : Item) (thing : Thing) → IsOctets item.body → thing_in item ≡ Some thing
        → IsThingItem item thing }
{}

/// Classes and their items.
pub fn classes_are_read_back()
    // A class is read back from its item.
    ensures back { (row : ClassRow) → IsKeptClass row → class_in (class_item row) ≡ Some row }
    // An item that reads as a class is that class's item, each octet of it.
    ensures alone { (item : Item) (row : ClassRow) → IsOctets item.body → class_in item ≡ Some row
        → IsClassItem item row }
{}

/// Local networks and their item.
pub fn locals_are_read_back()
    // The local networks are read back from their item.
    ensures back { (locals : List Prefix) → IsKeptLocals locals
        → locals_in (locals_item locals) ≡ Some locals }
    // An item that reads as local networks is theirs, each octet of it.
    ensures alone { (item : Item) (locals : List Prefix) → IsOctets item.body
        → locals_in item ≡ Some locals → IsLocalsItem item locals }
{}

/// Names and their items.
pub fn names_are_read_back()
    // A name is read back from its item.
    ensures back { (row : NameRow) → IsKeptName row → name_in (name_item row) ≡ Some row }
    // An item that reads as a name is that name's item, each octet of it.
    ensures alone { (item : Item) (row : NameRow) → IsOctets item.body → name_in item ≡ Some row
        → IsNameItem item row }
{}

/// The stamp and its item.
pub fn stamp_is_read_back()
    // The stamp is read back from its item.
    ensures back { (moment : ℕ) → moment ≤ 253402300799
        → stamp_in (stamp_item moment) ≡ Some moment }
    // An item that reads as a stamp is that stamp's item, each octet of it.
    ensures alone { (item : Item) (moment : ℕ) → IsOctets item.body → stamp_in item ≡ Some moment
        → (item ≡ stamp_item moment) × (moment ≤ 253402300799) }
{}
