//! Laws of items and puts, each on a function that does nothing.
ghost use Rattle.std.specs.Prelude.{◌≡◌, ℕ, ◌≤◌, ◌∷◌, ◌++◌, ◌↔◌, false, IsTrue, List, length, map, if◌then◌else◌};
ghost use Rattle.std.specs.List.{AllByRecursion};
ghost use Rattle.std.specs.Option.{option_map};
ghost use Rattle.base_rows.specs.Sortable.{row_at, same_sort_key, SortKeysAscend};
ghost use Rattle.base_rows.specs.Changes.{RowChange, IsNeededChange, changed, is_plain, sort_keys_of};
ghost use Rattle.mud_world.specs.declared.item.Item.{Item};
ghost use Rattle.mud_world.specs.declared.item.Put.{Put};
ghost use Rattle.mud_world.specs.Items.{sort_key_of, sort_key_of_put, put_one, put_all, is_apart, are_apart, item_after, puts_of, IsOrdered, IsDifference, ArePutsOf, AreOfLowerKinds, AreOfHigherKinds, AreItemsOf};

use base_rows::Sortable;

/// One put.
pub fn puts_say_what_is_kept()
    // Its sort key has what the put says, and each other sort key what it had.
    ensures row { (items : List Item) (put : Put) (p : List ℕ) → IsOrdered items
        → row_at sort_key_of p (put_one items put)
        ≡ (if same_sort_key (sort_key_of_put put) p then item_after put else row_at sort_key_of p items) }
    // It changes nothing just where its sort key had that already.
    ensures same { (items : List Item) (put : Put) → IsOrdered items
        → ((put_one items put ≡ items) ↔ (row_at sort_key_of (sort_key_of_put put) items ≡ item_after put)) }
    // The items stay in order.
    ensures ordered { (items : List Item) (puts : List Put) → IsOrdered items
        → IsOrdered (put_all items puts) }
{}

/// The puts that lead from some items to others are what differs, in some order.
pub fn puts_are_what_differs()
    // A sort key that no put is about has the same item before and after,
    ensures untouched { (before after : List Item) (puts : List Put) (p : List ℕ) → IsOrdered before
        → IsDifference before after puts → IsTrue (is_apart p puts)
        → row_at sort_key_of p after ≡ row_at sort_key_of p before }
    // a sort key that a put is about has not,
    ensures touched { (before after : List Item) (puts : List Put) (p : List ℕ) → IsOrdered before
        → IsDifference before after puts → is_apart p puts ≡ false
        → ¬ (row_at sort_key_of p after ≡ row_at sort_key_of p before) }
    // and each put says what its sort key has after.
    ensures said { (before after : List Item) (puts : List Put) → IsOrdered before
        → IsDifference before after puts
        → AllByRecursion (λ put. row_at sort_key_of (sort_key_of_put put) after ≡ item_after put) puts }
{}

/// Items of several kinds.
pub fn puts_stay_in_their_kind()
    // Puts of one kind leave the items of lower and higher kinds where they are.
    ensures among { (kind : ℕ) (low own high : List Item) (puts : List Put) → AreOfLowerKinds kind low
        → AreOfHigherKinds kind high → ArePutsOf kind puts
        → put_all (low ++ own ++ high) puts ≡ low ++ put_all own puts ++ high }
    // Items up to a kind in front of items of higher kinds are in order where both are.
    ensures ordered { (kind : ℕ) (low high : List Item)
        → AllByRecursion (λ item. item.kind ≤ kind) low → AreOfHigherKinds kind high
        → IsOrdered low → IsOrdered high → IsOrdered (low ++ high) }
{}

/// Rows that are kept as items of one kind, by their sort keys.
pub fn rows_are_kept_as_items<R: Sortable>()
    // The puts of a change make of the items of the rows those of the rows after it.
    ensures puts { (kind : ℕ) (item : R → Item) → AreItemsOf R.sort_key kind item
        → (change : RowChange R) (rows : List R)
        → put_all (map item rows) (puts_of kind item change) ≡ map item (changed R.sort_key change rows) }
    // They are of the kind, as many as the sort keys that the change touches,
    ensures kind { (kind : ℕ) (item : R → Item) → AreItemsOf R.sort_key kind item
        → (change : RowChange R) → ArePutsOf kind (puts_of kind item change) }
    ensures few { (kind : ℕ) (item : R → Item) → AreItemsOf R.sort_key kind item
        → (change : RowChange R)
        → length (puts_of kind item change) ≡ length (sort_keys_of R.sort_key change) }
    // and about sort keys of their own, where the change touches none twice.
    ensures apart { (kind : ℕ) (item : R → Item) → AreItemsOf R.sort_key kind item
        → (change : RowChange R) → IsTrue (is_plain R.sort_key change)
        → IsTrue (are_apart (puts_of kind item change)) }
    // They are the difference, where it also changes something at each sort key and the items tell
    // the rows apart.
    ensures difference { (kind : ℕ) (item : R → Item) → AreItemsOf R.sort_key kind item
        → ((x y : R) → item x ≡ item y → x ≡ y)
        → (change : RowChange R) (rows : List R) → SortKeysAscend R.sort_key rows
        → IsTrue (is_plain R.sort_key change) → IsNeededChange R.sort_key rows change
        → IsDifference (map item rows) (map item (changed R.sort_key change rows)) (puts_of kind item change) }
    // A sort key has the item of the row that has it,
    ensures row { (kind : ℕ) (item : R → Item) → AreItemsOf R.sort_key kind item
        → (p : List ℕ) (rows : List R)
        → row_at sort_key_of (kind ∷ p) (map item rows) ≡ option_map item (row_at R.sort_key p rows) }
    // and items of rows in order are in order.
    ensures ordered { (kind : ℕ) (item : R → Item) → AreItemsOf R.sort_key kind item
        → (rows : List R) → SortKeysAscend R.sort_key rows → IsOrdered (map item rows) }
{}
