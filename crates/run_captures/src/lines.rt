//! The lines of a capture as it streams, each by a step over a state.
ghost use Rattle.std.specs.Prelude.{◌≡◌, ◌≢◌, ◌⊎◌, ◌++◌, [], ℕ, List, false, OnOk, OnErr, ◌∷◌};
ghost use Rattle.mud_world.specs.Door.{DoorState};
ghost use Rattle.read_buffer.specs.Packets.{Packet};
ghost use Rattle.pcap_read.specs.Captured.{packet_of};
ghost use Rattle.run_captures.specs.Reading.{is_broken};
ghost use Rattle.run_common.specs.Ends.{IsSteady, IsStopped, IsStoppedWriting};
ghost use Rattle.run_common.specs.Output.{WritesOutput, WritesPart};
ghost use Rattle.run_common.specs.Status.{Is, IsNot, IsOneOf, status_number};
ghost use Rattle.run_common.specs.declared.status.Status.TheVariants.{Done, Refused, DoorFailed, NoMemory};
ghost use Rattle.run_captures.specs.Capture.{WritesTaken, output_behind, output_of_capture};
ghost use Rattle.run_captures.specs.Fold.{IsLeftBy};
ghost use Rattle.run_captures.specs.Runs.{HasAll, HasDone};

use crate::run::{Way, end_capture, go_on};
use crate::{CaptureFault, CaptureReader};
use mud_base::{Bytes, Memory};
use mud_world::{Door, ReadFault};
use pcap_read::Captured;
use run_common::Status;
use std::alloc::Global;

/// What writes the line of each packet of a capture, and may keep a state from packet to packet.
pub trait PacketLines {
    ghost use Rattle.std.specs.Prelude.{ℕ, List};
    ghost use Rattle.read_buffer.specs.Packets.{Packet};
    ghost use Rattle.run_captures.specs.Fold.{LineStep};

    /// What it keeps from packet to packet.
    ghost State: { Type 0 };

    /// Whether this is what it keeps now.
    ghost keeps: { Self → State → Type 0 };

    /// The line of a packet, and what it keeps behind it.
    ghost step: { State → Packet → LineStep State };

    /// The lines at the end of the packets.
    ghost ending: { State → List ℕ };

    /// Adds the line of the next packet, with a line feed at its end. Without memory it keeps what it
    /// kept, or what it would keep behind the packet.
    fn append_line(
        &mut self,
        alloc: Global,
        lines: &mut Bytes,
        packet: &Captured<'_>,
    ) -> Result<(), Memory>
        ensures line { (s : State) → keeps self.old s → OnOk result (lines.new ≡ lines.old ++ (step s (packet_of packet.now)).line) }
        ensures next { (s : State) → keeps self.old s → OnOk result (keeps self.new (step s (packet_of packet.now)).next) }
        ensures err { (s : State) → keeps self.old s → OnErr result (keeps self.new s ⊎ keeps self.new (step s (packet_of packet.now)).next) };

    /// Adds the lines at the end of the packets, each with a line feed at its end.
    fn append_last(&self, alloc: Global, lines: &mut Bytes) -> Result<(), Memory>
        ensures { (s : State) → keeps self.now s → OnOk result (lines.new ≡ lines.old ++ ending s) };
}

/// Writes what is left to be written of a capture that was read to its end, or to the fault that ends
/// it.
fn finish<D: Door, L: PacketLines>(
    alloc: Global,
    door: &mut D,
    writer: &L,
    lines: &mut Bytes,
    fault: Option<CaptureFault>,
) -> Status
    ensures statuses { IsOneOf (Done ∷ Refused ∷ DoorFailed ∷ NoMemory ∷ []) (status_number result) }
    ensures fault { Is DoorFailed (status_number result) → IsStoppedWriting (D.view door.old) (D.view door.new) }
    ensures steady { IsNot DoorFailed (status_number result) → (D.view door.new).writes ≡ (D.view door.old).writes }
    ensures done { (s : L.State) (packets : List Packet) (text : List ℕ) (first : DoorState) → L.keeps writer.now s → D.tells
        → HasAll packets text fault first (D.view door.old).state lines.old
        → IsOneOf (Done ∷ Refused ∷ []) (status_number result)
        → WritesOutput (output_behind (text ++ L.ending s) fault) first (D.view door.new).state (status_number result) }
    ensures part { (s : L.State) (packets : List Packet) (text : List ℕ) (first : DoorState) → L.keeps writer.now s → D.tells
        → HasAll packets text fault first (D.view door.old).state lines.old
        → IsOneOf (DoorFailed ∷ NoMemory ∷ []) (status_number result)
        → WritesPart (output_behind (text ++ L.ending s) fault) first (D.view door.new).state }
    ensures turns { (D.view door.new).turns ≡ (D.view door.old).turns }
    ensures reads { (D.view door.new).reads ≡ (D.view door.old).reads }
{
    if writer.append_last(alloc, lines).is_err() {
        return Status::NoMemory;
    }
    end_capture(door, lines, fault)
}

/// Writes the lines of the packets that are to come, then those at their end, and then that of the
/// fault that ends them.
fn write_packets<D: Door, L: PacketLines>(
    alloc: Global,
    door: &mut D,
    reader: &mut CaptureReader,
    writer: &mut L,
    lines: &mut Bytes,
) -> Status
    requires { is_broken reader.old ≡ false }
    ensures statuses { IsOneOf (Done ∷ Refused ∷ DoorFailed ∷ NoMemory ∷ []) (status_number result) }
    ensures fault { Is DoorFailed (status_number result) → IsStopped (D.view door.old) (D.view door.new) }
    ensures steady { IsNot DoorFailed (status_number result) → IsSteady (D.view door.old) (D.view door.new) }
    ensures done { (s : L.State) (first : DoorState) → L.keeps writer.old s → D.tells → HasDone [] [] reader.old first (D.view door.old).state lines.old
        → IsOneOf (Done ∷ Refused ∷ []) (status_number result)
        → WritesOutput (output_of_capture L.step L.ending s first.left) first (D.view door.new).state (status_number result) }
    ensures part { (s : L.State) (first : DoorState) → L.keeps writer.old s → D.tells → HasDone [] [] reader.old first (D.view door.old).state lines.old
        → IsOneOf (DoorFailed ∷ NoMemory ∷ []) (status_number result)
        → WritesPart (output_of_capture L.step L.ending s first.left) first (D.view door.new).state }
    ensures taken { (s : L.State) (first : DoorState) → L.keeps writer.old s → D.tells → HasDone [] [] reader.old first (D.view door.old).state lines.old
        → (D.view door.new).reads ≢ (D.view door.old).reads → WritesTaken L.step s first (D.view door.new).state }
    ensures left { (s : L.State) → L.keeps writer.old s → IsLeftBy (L.keeps writer.new) L.step s }
    ensures turns { (D.view door.new).turns ≡ (D.view door.old).turns }
{
    'packets: loop {
        match go_on(door, reader, lines) {
            Way::Packet => {}
            Way::Ended => return finish(alloc, door, writer, lines, None),
            Way::Broken(fault) => return finish(alloc, door, writer, lines, Some(fault)),
            Way::Failed => return Status::DoorFailed,
        }
        if writer.append_line(alloc, lines, &reader.packet()).is_err() {
            return Status::NoMemory;
        }
    }
}

/// Reads a capture, and writes the lines of its packets, then those at their end, and then that of
/// the fault that ends them. The line of each packet is written before more of the capture is read.
pub fn write_capture<D: Door, L: PacketLines>(alloc: Global, door: &mut D, writer: &mut L) -> Status
    ensures statuses { IsOneOf (Done ∷ Refused ∷ DoorFailed ∷ NoMemory ∷ []) (status_number result) }
    ensures fault { Is DoorFailed (status_number result) → IsStopped (D.view door.old) (D.view door.new) }
    ensures steady { IsNot DoorFailed (status_number result) → IsSteady (D.view door.old) (D.view door.new) }
    // From whatever the writer is said to keep, the lines are those of the packets in their order,
    ensures done { (s : L.State) → L.keeps writer.old s → D.tells → IsOneOf (Done ∷ Refused ∷ []) (status_number result) →
        WritesOutput (output_of_capture L.step L.ending s (D.view door.old).state.left) (D.view door.old).state (D.view door.new).state (status_number result) }
    ensures part { (s : L.State) → L.keeps writer.old s → D.tells → IsOneOf (DoorFailed ∷ NoMemory ∷ []) (status_number result) →
        WritesPart (output_of_capture L.step L.ending s (D.view door.old).state.left) (D.view door.old).state (D.view door.new).state }
    ensures taken { (s : L.State) → L.keeps writer.old s → D.tells → (D.view door.new).reads ≢ (D.view door.old).reads →
        WritesTaken L.step s (D.view door.old).state (D.view door.new).state }
    // and it keeps what some packets leave behind that; which packets, no clause says.
    ensures left { (s : L.State) → L.keeps writer.old s → IsLeftBy (L.keeps writer.new) L.step s }
    ensures turns { (D.view door.new).turns ≡ (D.view door.old).turns }
{
    let mut reader = match CaptureReader::begin(alloc, door) {
        Ok(reader) => reader,
        Err(ReadFault::Failed) => return Status::DoorFailed,
        Err(ReadFault::Memory) => return Status::NoMemory,
    };
    let mut lines = Bytes::empty(alloc);
    write_packets(alloc, door, &mut reader, writer, &mut lines)
}
