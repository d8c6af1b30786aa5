//! A law of the lines of captures, on a function that does nothing.
ghost use Rattle.std.specs.Prelude.{◌≡◌, ℕ, List};
ghost use Rattle.run_captures.specs.Same.{HoldTheSame};
ghost use Rattle.run_captures.specs.Capture.{output_of_capture};
ghost use Rattle.run_captures.specs.Fold.{LooksAtNoOffset};

use crate::lines::PacketLines;

/// Two whole captures whose packets have the same seconds and octets lead to the same lines, in
/// whichever formats they are, where the lines of a packet don't depend on its offset.
#[tactic(auto, using(crate::proofs::SamePackets::output_same))]
pub fn same_packets_lead_to_the_same_lines<L: PacketLines>()
    ensures { (s : L.State) (one : List ℕ) (other : List ℕ) → LooksAtNoOffset L.step → HoldTheSame one other
        → output_of_capture L.step L.ending s one ≡ output_of_capture L.step L.ending s other }
{}
