//! The door's half of a command that reads a capture, whatever it makes of the packets.
ghost use Rattle.std.specs.Prelude.{◌≡◌, ◌≢◌, ◌<◌, ◌++◌, [], ℕ, List, false, IsSome, IsTrue, OnOk, OnErr, is_err, ◌∷◌, Some};
ghost use Rattle.mud_world.specs.Causes.{Counts};
ghost use Rattle.mud_world.specs.Door.{DoorState, put_out};
ghost use Rattle.mud_world.specs.Whole.{WrotePart};
ghost use Rattle.read_buffer.specs.Packets.{Packet};
ghost use Rattle.run_captures.specs.Reading.{is_broken, most_to_come, packet_at};
ghost use Rattle.run_common.specs.Ends.{IsSteady, IsStopped, IsStoppedWriting};
ghost use Rattle.run_common.specs.Output.{WritesOutput, WritesPart, WroteFront};
ghost use Rattle.run_common.specs.Status.{Is, IsNot, IsOneOf, status_number};
ghost use Rattle.run_common.specs.declared.status.Status.TheVariants.{Done, Refused, DoorFailed, NoMemory};
ghost use Rattle.run_captures.specs.Capture.{output_behind, end_line};
ghost use Rattle.run_captures.specs.Runs.{HasAll, HasDone, LedTo, WroteTaken, has_failed};
ghost use Rattle.run_captures.specs.declared.run.Way.TheVariants as way;

use crate::{CaptureFault, CaptureReader};
use mud_base::{Bytes, Memory};
use mud_world::{Door, Failed, say};
use run_common::Status;
use text_values::append_offset;

/// Lines of more octets than these are written although the next packet is held.
const MOST_GATHERED: usize = 65_536;

/// Where a run stands that went on.
#[derive(Clone, Copy)]
pub enum Way {
    /// At the next packet.
    Packet,
    /// At the end of the capture.
    Ended,
    /// At the fault that ends the capture. It isn't that of a source that failed.
    Broken(CaptureFault),
    /// A read or a write of the door failed.
    Failed,
}

/// Adds the line of a fault of a capture: `fault`, the rule's name, and its offset where it has
/// one.
#[tactic(auto, unfolding(crate::specs::Capture::end_line))]
fn append_fault(lines: &mut Bytes, fault: CaptureFault) -> Result<(), Memory>
    ensures { OnOk result (lines.new ≡ lines.old ++ (end_line (Some fault))) }
{
    lines.append(b"fault ")?;
    lines.append(fault.name().as_bytes())?;
    append_offset(lines, fault.offset())?;
    lines.append(b"\n")
}

/// Writes the lines gathered, and empties their text.
fn write_out<D: Door>(door: &mut D, lines: &mut Bytes) -> Result<(), Failed>
    ensures ok { D.tells → OnOk result ((D.view door.new).state ≡ put_out lines.old (D.view door.old).state) }
    ensures empty { OnOk result (lines.new ≡ []) }
    ensures part { D.tells → OnErr result (WrotePart lines.old (D.view door.old).state (D.view door.new).state) }
    ensures cause { Counts (is_err result) (D.view door.old).writes (D.view door.new).writes }
    ensures stop { OnErr result (IsStoppedWriting (D.view door.old) (D.view door.new)) }
    ensures turns { (D.view door.new).turns ≡ (D.view door.old).turns }
    ensures reads { (D.view door.new).reads ≡ (D.view door.old).reads }
{
    say(door, lines.octets())?;
    lines.clear();
    Ok(())
}

/// Writes the lines gathered where more is to be read next, or where they are many. Where they
/// aren't written they stay.
fn write_before<D: Door>(door: &mut D, lines: &mut Bytes, is_ready: bool) -> Result<(), Failed>
    ensures ok { D.tells → OnOk result (WroteFront lines.old lines.new (D.view door.old).state (D.view door.new).state) }
    ensures unready { is_ready ≡ false → OnOk result (lines.new ≡ []) }
    ensures part { D.tells → OnErr result (WrotePart lines.old (D.view door.old).state (D.view door.new).state) }
    ensures cause { Counts (is_err result) (D.view door.old).writes (D.view door.new).writes }
    ensures stop { OnErr result (IsStoppedWriting (D.view door.old) (D.view door.new)) }
    ensures turns { (D.view door.new).turns ≡ (D.view door.old).turns }
    ensures reads { (D.view door.new).reads ≡ (D.view door.old).reads }
{
    if is_ready && lines.len() <= MOST_GATHERED {
        return Ok(());
    }
    write_out(door, lines)
}

/// Writes the lines gathered where more of the capture is to be read, and goes on to the next
/// packet. So whatever was made of the packets read so far is written before a read.
pub fn go_on<D: Door>(door: &mut D, reader: &mut CaptureReader, lines: &mut Bytes) -> Way
    requires { is_broken reader.old ≡ false }
    ensures led { (packets : List Packet) (text : List ℕ) (first : DoorState) → D.tells
        → HasDone packets text reader.old first (D.view door.old).state lines.old
        → LedTo result packets text reader.new first (D.view door.new).state lines.new }
    ensures taken { (packets : List Packet) (text : List ℕ) (first : DoorState) → D.tells
        → HasDone packets text reader.old first (D.view door.old).state lines.old
        → (D.view door.new).reads ≢ (D.view door.old).reads → WroteTaken packets text first (D.view door.new).state }
    ensures fault { IsTrue (has_failed result) → IsStopped (D.view door.old) (D.view door.new) }
    ensures steady { has_failed result ≡ false → IsSteady (D.view door.old) (D.view door.new) }
    ensures turns { (D.view door.new).turns ≡ (D.view door.old).turns }
    ensures here { result ≡ way.Packet → IsSome (packet_at reader.new) }
    ensures going { result ≡ way.Packet → is_broken reader.new ≡ false }
    ensures fewer { result ≡ way.Packet → most_to_come reader.new < most_to_come reader.old }
{
    if write_before(door, lines, reader.is_ready()).is_err() {
        return Way::Failed;
    }
    match reader.advance(door) {
        Ok(true) => Way::Packet,
        Ok(false) => Way::Ended,
        Err(fault) => {
            if fault.is_read_fault() {
                Way::Failed
            } else {
                Way::Broken(fault)
            }
        }
    }
}

/// Writes the last lines of a capture, and behind them that of the fault that ends it, where one
/// does.
pub fn end_capture<D: Door>(door: &mut D, lines: &mut Bytes, fault: Option<CaptureFault>) -> Status
    ensures statuses { IsOneOf (Done ∷ Refused ∷ DoorFailed ∷ NoMemory ∷ []) (status_number result) }
    ensures fault { Is DoorFailed (status_number result) → IsStoppedWriting (D.view door.old) (D.view door.new) }
    ensures steady { IsNot DoorFailed (status_number result) → (D.view door.new).writes ≡ (D.view door.old).writes }
    ensures done { (packets : List Packet) (text : List ℕ) (first : DoorState) → D.tells → HasAll packets text fault first (D.view door.old).state lines.old
        → IsOneOf (Done ∷ Refused ∷ []) (status_number result)
        → WritesOutput (output_behind text fault) first (D.view door.new).state (status_number result) }
    ensures part { (packets : List Packet) (text : List ℕ) (first : DoorState) → D.tells → HasAll packets text fault first (D.view door.old).state lines.old
        → IsOneOf (DoorFailed ∷ NoMemory ∷ []) (status_number result)
        → WritesPart (output_behind text fault) first (D.view door.new).state }
    ensures turns { (D.view door.new).turns ≡ (D.view door.old).turns }
    ensures reads { (D.view door.new).reads ≡ (D.view door.old).reads }
{
    let mut status = Status::Done;
    if let Some(fault) = fault {
        if append_fault(lines, fault).is_err() {
            return Status::NoMemory;
        }
        status = Status::Refused;
    }
    match say(door, lines.octets()) {
        Ok(()) => status,
        Err(Failed) => Status::DoorFailed,
    }
}
