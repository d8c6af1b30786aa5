//! One packet of a capture: the verdict on it, and what is learnt of it.
ghost use Rattle.std.specs.Prelude.{◌≡◌, IfOk, OnOk, OnErr};
ghost use Rattle.mud_world.specs.Kept.{faults_of};
ghost use Rattle.mud_world.specs.Causes.{Counts};
ghost use Rattle.frame_view.specs.Frame.{frame_of};
ghost use Rattle.pcap_read.specs.Captured.{packet_of};
ghost use Rattle.run_desk.specs.Judged.{judged_packet};
ghost use Rattle.desk_model.specs.Kept.{IsKept};
ghost use Rattle.mud_desk.specs.DeskState.{session_of, tables_of};
ghost use Rattle.mud_desk.specs.Stays.{StaysKept};
ghost use Rattle.run_packets.specs.Snoop.Packets.{GoesOn, StopsAt};

use crate::snoop::learning::heard_in;
use crate::snoop::observing::learn;
use mud_base::{Bytes, Memory};
use mud_desk::{Desk, JudgedFrame};
use mud_world::Keeper;
use pcap_read::Captured;
use run_desk::{append_judged, moment_of};
use std::alloc::Global;

/// The verdict on a packet, at its seconds or at the session's moment where that is later, and what
/// it was read as. Without memory the session stays as it was.
fn judge_packet<'a, K: Keeper>(
    desk: &mut Desk<K>,
    packet: &Captured<'a>,
) -> Result<JudgedFrame<'a>, Memory>
    requires kept { IsKept ⟦<K as Keeper>⟧ desk.old.keeper (tables_of desk.old.state) }
    ensures stays { StaysKept ⟦<K as Keeper>⟧ desk.old desk.new }
    ensures keeper { desk.new.keeper ≡ desk.old.keeper }
    ensures frame { IfOk result (λ judged. judged.frame ≡ frame_of packet.now.octets.now) }
    ensures verdict { IfOk result (λ judged. judged.verdict ≡ (judged_packet (session_of desk.old.state) (packet_of packet.now)).verdict) }
    ensures next { OnOk result (session_of desk.new.state ≡ (judged_packet (session_of desk.old.state) (packet_of packet.now)).session) }
    ensures err { OnErr result (session_of desk.new.state ≡ session_of desk.old.state) }
{
    desk.judge_frame(packet.octets, moment_of(packet))
}

/// Judges a packet, adds its line, and observes the addresses that are heard in it, at the moment of
/// the session behind it. The answer is whether the keeper failed at one of them.
pub(crate) fn snoop_packet<K: Keeper>(
    alloc: Global,
    desk: &mut Desk<K>,
    lines: &mut Bytes,
    packet: &Captured<'_>,
) -> Result<bool, Memory>
    requires kept { IsKept ⟦<K as Keeper>⟧ desk.old.keeper (tables_of desk.old.state) }
    ensures stays { StaysKept ⟦<K as Keeper>⟧ desk.old desk.new }
    ensures all { IfOk result (λ failed. GoesOn (packet_of packet.now) (session_of desk.old.state) (session_of desk.new.state)
        lines.old lines.new (faults_of ⟦<K as Keeper>⟧ desk.old.keeper) (faults_of ⟦<K as Keeper>⟧ desk.new.keeper) failed) }
    ensures part { OnErr result (StopsAt (packet_of packet.now) (session_of desk.old.state) (session_of desk.new.state)
        (faults_of ⟦<K as Keeper>⟧ desk.old.keeper) (faults_of ⟦<K as Keeper>⟧ desk.new.keeper)) }
    ensures keeper { IfOk result (λ failed. Counts failed (faults_of ⟦<K as Keeper>⟧ desk.old.keeper) (faults_of ⟦<K as Keeper>⟧ desk.new.keeper)) }
{
    let judged = judge_packet(desk, packet)?;
    append_judged(lines, packet, &judged.verdict)?;
    let Some(message) = heard_in(desk.classes(), &judged) else {
        return Ok(false);
    };
    let now = desk.moment();
    learn(alloc, desk, lines, message, now)
}
