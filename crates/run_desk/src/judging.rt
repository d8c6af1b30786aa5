//! The verdict on each packet of a capture.
ghost use Rattle.std.specs.Prelude.{◌≡◌, ◌≢◌, ◌++◌, IfOk, OnOk, OnErr, [], ◌∷◌};
ghost use Rattle.frame_view.specs.Frame.{frame_of};
ghost use Rattle.pcap_read.specs.Captured.{packet_of};
ghost use Rattle.run_captures.specs.Capture.{WritesTaken, output_of_capture};
ghost use Rattle.run_captures.specs.Fold.{no_ending};
ghost use Rattle.run_common.specs.Ends.{IsSteady, IsStopped};
ghost use Rattle.run_common.specs.Output.{WritesOutput, WritesPart};
ghost use Rattle.run_common.specs.Status.{Is, IsNot, IsOneOf, status_number};
ghost use Rattle.run_common.specs.declared.status.Status.TheVariants.{Done, Refused, DoorFailed, NoMemory};
ghost use Rattle.desk_model.specs.Kept.{IsKept};
ghost use Rattle.mud_desk.specs.DeskState.{tables_of, session_of};
ghost use Rattle.run_desk.specs.Judged.{judged_line, judged_packet, judged_step};

use desk_model::texts::append_verdict;
use mud_base::{Bytes, Memory, Moment};
use mud_desk::{Desk, JudgedFrame, State, Verdict};
use mud_world::{Door, Keeper};
use pcap_read::Captured;
use run_captures::{PacketLines, write_capture};
use run_common::Status;
use std::alloc::Global;
use text_values::append_two;

/// The seconds of a packet as a moment. No number of 32 bits is after the last moment.
pub fn moment_of(packet: &Captured<'_>) -> Moment
    ensures { result ≡ packet.now.seconds }
{
    Moment::at_most_last(u64::from(packet.seconds))
}

/// The verdict on a packet, at its seconds or at the session's moment where that is later, and what
/// it was read as. Without memory the session stays as it was. It stands where it is called, so that
/// what was read isn't copied where nobody asks for that.
#[inline(always)]
pub fn judge_packet<'a>(state: &mut State, packet: &Captured<'a>) -> Result<JudgedFrame<'a>, Memory>
    ensures frame { IfOk result (λ judged. judged.frame ≡ frame_of packet.now.octets.now) }
    ensures verdict { IfOk result (λ judged. judged.verdict ≡ (judged_packet (session_of state.old) (packet_of packet.now)).verdict) }
    ensures next { OnOk result (session_of state.new ≡ (judged_packet (session_of state.old) (packet_of packet.now)).session) }
    ensures err { OnErr result (session_of state.new ≡ session_of state.old) }
{
    state.judge_frame(packet.octets, moment_of(packet))
}

/// Adds the line of a packet: its number, its seconds, and the verdict on it.
#[tactic(auto, unfolding(crate::specs::Judged::judged_line, text_values::specs::Numbers::number_text, text_values::specs::Numbers::two_text))]
pub fn append_judged(
    lines: &mut Bytes,
    packet: &Captured<'_>,
    verdict: &Verdict,
) -> Result<(), Memory>
    ensures { OnOk result (lines.new ≡ lines.old ++ judged_line (packet_of packet.now) verdict.now) }
{
    append_two(lines, packet.number, packet.seconds)?;
    append_verdict(lines, verdict)?;
    lines.push(b'\n')
}

/// The lines of `judge`: the verdict on each packet, in a session of a desk.
#[derive(Drop)]
pub struct JudgedLines {
    pub state: State,
}

impl PacketLines for JudgedLines {
    ghost use Rattle.run_captures.specs.Fold.{no_ending};
    ghost use Rattle.desk_model.specs.Sessions.{Session};
    ghost use Rattle.mud_desk.specs.DeskState.{session_of};
    ghost use Rattle.run_desk.specs.Judged.{judged_step};

    ghost State = { Session };

    ghost keeps = { λ lines session. session_of lines.state ≡ session };

    ghost step = { judged_step };

    ghost ending = { no_ending };

    fn append_line(
        &mut self,
        _alloc: Global,
        lines: &mut Bytes,
        packet: &Captured<'_>,
    ) -> Result<(), Memory> {
        let verdict = judge_packet(&mut self.state, packet)?.verdict;
        append_judged(lines, packet, &verdict)
    }

    fn append_last(&self, _alloc: Global, _lines: &mut Bytes) -> Result<(), Memory> {
        Ok(())
    }
}

/// Reads a capture, and writes the lines of its packets with the verdicts of the desk's session, and
/// then that of the fault that ends them. The keeper isn't called.
pub(crate) fn judge_capture<K: Keeper, D: Door>(
    alloc: Global,
    desk: Desk<K>,
    door: &mut D,
) -> (Status, K)
    requires { IsKept ⟦<K as Keeper>⟧ desk.keeper (tables_of desk.state) }
    ensures statuses { IsOneOf (Done ∷ Refused ∷ DoorFailed ∷ NoMemory ∷ []) (status_number result.0) }
    ensures fault { Is DoorFailed (status_number result.0) → IsStopped (D.view door.old) (D.view door.new) }
    ensures steady { IsNot DoorFailed (status_number result.0) → IsSteady (D.view door.old) (D.view door.new) }
    // The lines are those of the packets in their order, in the session of the desk.
    ensures done { D.tells → IsOneOf (Done ∷ Refused ∷ []) (status_number result.0) →
        WritesOutput (output_of_capture judged_step no_ending (session_of desk.state) (D.view door.old).state.left)
        (D.view door.old).state (D.view door.new).state (status_number result.0) }
    ensures part { D.tells → IsOneOf (DoorFailed ∷ NoMemory ∷ []) (status_number result.0) →
        WritesPart (output_of_capture judged_step no_ending (session_of desk.state) (D.view door.old).state.left)
        (D.view door.old).state (D.view door.new).state }
    ensures taken { D.tells → (D.view door.new).reads ≢ (D.view door.old).reads →
        WritesTaken judged_step (session_of desk.state) (D.view door.old).state (D.view door.new).state }
    ensures turns { (D.view door.new).turns ≡ (D.view door.old).turns }
    ensures keeper { result.1 ≡ desk.keeper }
{
    let (keeper, state) = desk.into_parts();
    let mut lines = JudgedLines { state };
    let status = write_capture(alloc, door, &mut lines);
    drop(lines);
    (status, keeper)
}
