//! Laws of the commands on Things, each on a function that does nothing.
ghost use Rattle.std.specs.Prelude.{◌≡◌, ℕ, ◌<◌, ◌≤◌, ◌^◌, ◌++◌, Bool, IsTrue, IfOk, List, [], ◌∷◌, length};
ghost use Rattle.mud_base.specs.declared.addr.Addr.{Addr};
ghost use Rattle.mud_base.specs.declared.addr.Mac.{Mac};
ghost use Rattle.mud_url.specs.Url.{is_canonical};
ghost use Rattle.table_model.specs.declared.thing.Thing.{Thing};
ghost use Rattle.table_model.specs.ItemFields.{IsAddr};
ghost use Rattle.table_model.specs.Things.{IsKeptThing, IsSoundThings};
ghost use Rattle.table_model.specs.ThingCommands.{TellsChange, url_step, move_step, remove_step, hold_step, release_step, lease_step, end_step};
ghost use Rattle.table_model.specs.ThingItems.{may_follow};

/// Every step on Things keeps them sound.
pub fn things_stay_sound()
    // A hardware address announces a canonical URL.
    ensures url { (things : List Thing) → IsSoundThings things → (mac : Mac) (url : List ℕ)
        → length mac.0 ≡ 6 → IsTrue (is_canonical url)
        → IfOk (url_step mac url things) (λ after. IsSoundThings after.things) }
    ensures moves { (things : List Thing) → IsSoundThings things → (mac : Mac) (url : List ℕ)
        → IfOk (move_step mac url things) (λ after. IsSoundThings after.things) }
    ensures removes { (things : List Thing) → IsSoundThings things → (mac : Mac)
        → IfOk (remove_step mac things) (λ after. IsSoundThings after.things) }
    ensures hold { (things : List Thing) → IsSoundThings things → (mac : Mac)
        → IfOk (hold_step mac things) (λ after. IsSoundThings after.things) }
    ensures release { (things : List Thing) → IsSoundThings things → (mac : Mac)
        → IfOk (release_step mac things) (λ after. IsSoundThings after.things) }
    // The address fits its 32 or 128 bits, the moment is none after the last one, and the seconds
    // fit 32 bits.
    ensures lease { (things : List Thing) → IsSoundThings things → (mac : Mac) (a : Addr)
        (seconds now : ℕ) (heard : Bool) → IsAddr a → now ≤ 253402300799 → seconds < 2 ^ 32
        → IfOk (lease_step mac a seconds now heard things) (λ after. IsSoundThings after.things) }
    ensures ends { (things : List Thing) → IsSoundThings things → (a : Addr)
        → IfOk (end_step a things) (λ after. IsSoundThings after.things) }
{}

/// Every step on Things says that it changes the list exactly where it does.
pub fn things_change_as_told()
    ensures url { (things : List Thing) → IsSoundThings things → (mac : Mac) (url : List ℕ)
        → IfOk (url_step mac url things) (TellsChange things) }
    ensures moves { (things : List Thing) → IsSoundThings things → (mac : Mac) (url : List ℕ)
        → IfOk (move_step mac url things) (TellsChange things) }
    ensures removes { (things : List Thing) → IsSoundThings things → (mac : Mac)
        → IfOk (remove_step mac things) (TellsChange things) }
    ensures hold { (things : List Thing) → IsSoundThings things → (mac : Mac)
        → IfOk (hold_step mac things) (TellsChange things) }
    ensures release { (things : List Thing) → IsSoundThings things → (mac : Mac)
        → IfOk (release_step mac things) (TellsChange things) }
    ensures lease { (things : List Thing) → IsSoundThings things → (mac : Mac) (a : Addr)
        (seconds now : ℕ) (heard : Bool)
        → IfOk (lease_step mac a seconds now heard things) (TellsChange things) }
    ensures ends { (things : List Thing) → IsSoundThings things → (a : Addr)
        → IfOk (end_step a things) (TellsChange things) }
{}

/// Things that are read one after the other.
pub fn things_are_read_sound()
    // A Thing that can be kept and may follow sound ones makes sound ones.
    ensures push { (things : List Thing) (thing : Thing) → IsSoundThings things → IsKeptThing thing
        → IsTrue (may_follow things thing) → IsSoundThings (things ++ thing ∷ []) }
    // Each of sound Things may follow those before it.
    ensures follows { (xs : List Thing) (thing : Thing) (ys : List Thing)
        → IsSoundThings (xs ++ thing ∷ ys) → IsTrue (may_follow xs thing) }
{}
