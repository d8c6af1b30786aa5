//! A law of what `judge` writes, on a function that does nothing.
ghost use Rattle.std.specs.Prelude.{◌≡◌, ℕ, List};
ghost use Rattle.run_captures.specs.Same.{HoldTheSame};
ghost use Rattle.desk_model.specs.DeskTables.{DeskTables};
ghost use Rattle.run_desk.specs.Store.{judged_output};

/// Two whole captures whose packets have the same seconds and octets are judged alike, in whichever
/// formats they are.
#[tactic(auto, using(crate::proofs::SameCaptures::judged_alike))]
pub fn captures_that_hold_the_same_are_judged_alike()
    ensures { (tables : DeskTables) (one : List ℕ) (other : List ℕ) → HoldTheSame one other
        → judged_output tables one ≡ judged_output tables other }
{}
