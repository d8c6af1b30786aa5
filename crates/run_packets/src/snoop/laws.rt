//! A law of what `snoop` does, on a function that does nothing.
ghost use Rattle.std.specs.Prelude.{ℕ, List, []};
ghost use Rattle.mud_world.specs.Door.{DoorState, with_left};
ghost use Rattle.run_captures.specs.Same.{HoldTheSame};
ghost use Rattle.desk_model.specs.Sessions.{Session};
ghost use Rattle.run_packets.specs.Snoop.Runs.{scene, SnoopsAll};

/// What a run may do of a whole capture, it may do of another one whose packets have the same seconds
/// and octets, in whichever formats they are: it writes the same lines, and leads to the same session.
#[tactic(auto, using(crate::proofs::SnoopLaws::SameCaptures::snooped_alike))]
pub fn captures_that_hold_the_same_lead_to_the_same()
    ensures { (one : List ℕ) (other : List ℕ) (before after : Session) (door now : DoorState) (faults : ℕ) (faults_now : ℕ) (status : ℕ) → HoldTheSame one other
        → SnoopsAll (scene before (with_left one door) faults) (scene after now faults_now) status
        → SnoopsAll (scene before (with_left other door) faults) (scene after (with_left [] now) faults_now) status }
{}
