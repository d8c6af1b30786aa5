//! What a run writes whose store can't be opened.
ghost use Rattle.std.specs.Prelude.{◌≡◌, ◌++◌, IfOk, OnOk, [], ◌∷◌, codes, length, ◌==◌, if◌then◌else◌};
ghost use Rattle.mud_world.specs.Door.{put_out};
ghost use Rattle.run_common.specs.Ends.{IsStoppedWriting};
ghost use Rattle.run_common.specs.Output.{WroteFirst};
ghost use Rattle.run_common.specs.Status.{Is, IsNot, IsOneOf, status_number};
ghost use Rattle.run_common.specs.declared.status.Status.TheVariants.{DoorFailed, NoMemory, BadItem};
ghost use Rattle.mud_desk.specs.Items.Opening.{IsOfCall};
ghost use Rattle.run_desk.specs.Refused.{IsRefusal, bad_item_line, refusal_text};
ghost use Rattle.hex.specs.Hex.{encode_lower};

use mud_base::{Bytes, Memory};
use mud_desk::OpenFault;
use mud_world::{Door, Failed, say};
use run_common::Status;
use std::alloc::Global;
use text_values::append_number;

/// Adds a space and the key of an item in lower-case hex digits, where it isn't empty.
#[tactic(auto)]
fn append_key(alloc: Global, line: &mut Bytes, key: &[u8]) -> Result<(), Memory>
    ensures { OnOk result (line.new ≡ line.old ++ (if length key.now == 0 then [] else codes " " ++ encode_lower key.now)) }
{
    if key.is_empty() {
        return Ok(());
    }
    line.append(b" ")?;
    line.append(hex::encode(alloc, key)?.as_bytes())
}

/// The line that names an item: `fault item`, its kind, and its key where it isn't empty.
#[tactic(auto, unfolding(crate::specs::Refused::bad_item_line))]
fn item_line(alloc: Global, kind: u8, key: &[u8]) -> Result<Bytes, Memory>
    ensures { IfOk result (λ line. line ≡ bad_item_line kind key.now) }
{
    let mut line = Bytes::new(alloc, b"fault item")?;
    append_number(&mut line, u64::from(kind))?;
    append_key(alloc, &mut line, key)?;
    line.append(b"\n")?;
    Ok(line)
}

/// Writes the line that names an item.
fn name_item<D: Door>(alloc: Global, door: &mut D, kind: u8, key: &[u8]) -> Status
    ensures statuses { IsOneOf (BadItem ∷ DoorFailed ∷ NoMemory ∷ []) (status_number result) }
    ensures fault { Is DoorFailed (status_number result) → IsStoppedWriting (D.view door.old) (D.view door.new) }
    ensures steady { IsNot DoorFailed (status_number result) → (D.view door.new).writes ≡ (D.view door.old).writes }
    ensures done { D.tells → Is BadItem (status_number result) → (D.view door.new).state ≡ put_out (bad_item_line kind key.now) (D.view door.old).state }
    ensures part { D.tells → IsOneOf (DoorFailed ∷ NoMemory ∷ []) (status_number result) →
        WroteFirst (bad_item_line kind key.now) (D.view door.old).state (D.view door.new).state }
    ensures turns { (D.view door.new).turns ≡ (D.view door.old).turns }
    ensures reads { (D.view door.new).reads ≡ (D.view door.old).reads }
{
    let Ok(line) = item_line(alloc, kind, key) else {
        return Status::NoMemory;
    };
    match say(door, line.octets()) {
        Ok(()) => Status::BadItem,
        Err(Failed) => Status::DoorFailed,
    }
}

/// The status of a run whose store can't be opened. Where an item is no record, the line that names it
/// is written; else nothing is. The door isn't read.
pub fn refuse_store<D: Door>(alloc: Global, door: &mut D, fault: OpenFault) -> Status
    ensures statuses { IsRefusal fault (status_number result) }
    ensures fault { Is DoorFailed (status_number result) → IsStoppedWriting (D.view door.old) (D.view door.new) }
    ensures steady { IsNot DoorFailed (status_number result) → (D.view door.new).writes ≡ (D.view door.old).writes }
    ensures done { D.tells → Is BadItem (status_number result) → (D.view door.new).state ≡ put_out (refusal_text fault) (D.view door.old).state }
    ensures part { D.tells → IsOneOf (DoorFailed ∷ NoMemory ∷ []) (status_number result) →
        WroteFirst (refusal_text fault) (D.view door.old).state (D.view door.new).state }
    // For a failure of the keeper, and for want of memory in the opening, the door isn't called at all.
    ensures untouched { IsOfCall fault → door.new ≡ door.old }
    ensures turns { (D.view door.new).turns ≡ (D.view door.old).turns }
    ensures reads { (D.view door.new).reads ≡ (D.view door.old).reads }
{
    match fault {
        OpenFault::Keeper => Status::KeeperFailed,
        OpenFault::Memory => Status::NoMemory,
        OpenFault::BadItem(kind, key) => name_item(alloc, door, kind, key.octets()),
    }
}
