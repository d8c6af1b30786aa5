//! A law of what `frames` writes, on a function that does nothing.
ghost use Rattle.std.specs.Prelude.{◌≡◌, ℕ, List};
ghost use Rattle.run_captures.specs.Same.{HoldTheSame};
ghost use Rattle.run_captures.specs.Capture.{output_of_capture};
ghost use Rattle.run_captures.specs.Fold.{no_ending};
ghost use Rattle.mud_cli.specs.Frames.Lines.{frame_step};

/// Two whole captures whose packets have the same seconds and octets have the same lines, in whichever
/// formats they are.
#[tactic(auto, using(crate::proofs::SameCaptures::framed_alike))]
pub fn captures_that_hold_the_same_have_the_same_lines()
    ensures { (one : List ℕ) (other : List ℕ) → HoldTheSame one other
        → output_of_capture frame_step no_ending tt one ≡ output_of_capture frame_step no_ending tt other }
{}
