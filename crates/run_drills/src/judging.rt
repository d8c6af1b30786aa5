//! The packets of a drill, one after the other.
ghost use Rattle.std.specs.Prelude.{◌≡◌, IfOk};
ghost use Rattle.mud_desk.specs.DeskState.{session_of};
ghost use Rattle.run_drills.specs.Counts.{verdict_counts};
ghost use Rattle.run_drills.specs.Drill.{numbers_to, verdicts_on};

use crate::counts::VerdictCounts;
use crate::packets::{packet_moment, write_packet};
use mud_base::{Bytes, Memory};
use mud_desk::State;
use std::alloc::Global;

/// Judges all packets, each written into one buffer, and counts the verdicts on them.
pub(crate) fn judge_packets(
    alloc: Global,
    state: &mut State,
    packets: u32,
) -> Result<VerdictCounts, Memory>
    ensures { IfOk result (λ counts. counts ≡ verdict_counts (verdicts_on packets (session_of state.old) (numbers_to packets))) }
{
    let mut counts = VerdictCounts::none();
    let mut frame = Bytes::empty(alloc);
    for before in 0..packets {
        let number = before + 1;
        write_packet(&mut frame, packets, number)?;
        let judged = state.judge_frame(frame.octets(), packet_moment(number))?;
        counts.add(&judged.verdict);
    }
    Ok(counts)
}
