//! Laws of rulings, each on a function that does nothing.
ghost use Rattle.std.specs.Prelude.{◌≡◌, ℕ, ◌<◌, ◌^◌, List, length, Option};
ghost use Rattle.mud_base.specs.declared.packet.Direction.{Direction};
ghost use Rattle.acl_model.specs.declared.binding.Binding.{Binding};
ghost use Rattle.acl_model.specs.declared.entry.Policy.{Policy};
ghost use Rattle.acl_rows.specs.Rows.{for_ever, Slots};
ghost use Rattle.acl_model.specs.Match.{peer_of};
ghost use Rattle.acl_rows.specs.declared.row.Row.{Row};
ghost use Rattle.acl_rows.specs.View.{View, IsViewOf};
ghost use Rattle.table_model.specs.Bindings.{ruling_by_bindings};
ghost use Rattle.packet_judge.specs.ByRows.{Asked, ruling_by_rows, IsViewOver};
ghost use Rattle.packet_judge.specs.RuleSteps.{least_steps, most_steps, FitsRows, url_rows_read, url_steps};

/// The ruling by the rows of a view is the one by the bindings that the rows are made from, at
/// every moment.
pub fn rows_rule_alike()
    ensures { (slots : Slots) (bindings : List Binding) (url : List ℕ) (policy : Option Policy)
        (side : Direction) (view : View) (asked : Asked)
        → IsViewOver slots bindings url policy side view → asked.moment < for_ever
        → ruling_by_rows asked view ≡ ruling_by_bindings bindings asked.locals asked.moment url
        policy side asked.fields asked.begun }
{}

/// The steps of a ruling on the view of a URL, by all rows.
pub fn views_take_steps()
    // No row is sought among more than all rows.
    ensures fits { (slots : Slots) (rows : List Row) (url : List ℕ) (side : Direction) (view : View)
        (b : ℕ) → IsViewOf slots rows url side view → length rows < 2 ^ b → FitsRows b view }
    // The rows that are read at least are those of the URL's file at the peer.
    ensures least { (slots : Slots) (rows : List Row) (url : List ℕ) (side : Direction) (view : View)
        (asked : Asked) → IsViewOf slots rows url side view
        → least_steps asked view ≡ url_rows_read slots rows url side (peer_of side asked.fields) }
    // There is no step more than those of the URL's file and of the defaults.
    ensures most { (slots : Slots) (rows : List Row) (url : List ℕ) (side : Direction) (view : View)
        (asked : Asked) (b : ℕ) → IsViewOf slots rows url side view
        → most_steps asked b view ≡ url_steps slots rows url side (peer_of side asked.fields) b }
{}
