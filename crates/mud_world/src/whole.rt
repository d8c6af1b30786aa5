//! Whole lines written to a door, and whole connections read of one.
ghost use Rattle.std.specs.Prelude.{◌≡◌, ℕ, ◌+◌, ◌<◌, ◌≤◌, [], ◌++◌, length, take, false, IfOk, OnOk, OnErr, IsTrue, is_err};
ghost use Rattle.mud_world.specs.Causes.{Counts, StopsAtFailure};
ghost use Rattle.mud_world.specs.Door.{Reads, put_out};
ghost use Rattle.mud_world.specs.Whole.{ReadWhole, TookPart, WrotePart, has_failed};

use crate::door::Door;
use crate::fault::Failed;
use mud_base::{Bytes, Memory};
use std::alloc::Global;

/// Why a connection wasn't read whole.
#[derive(Clone, Copy)]
pub enum ReadFault {
    /// The door failed. Its count of failed reads rose.
    Failed,
    /// Memory was wanted and there was none.
    Memory,
}

impl From<Failed> for ReadFault {
    ghost use Rattle.mud_world.specs.declared.whole.ReadFault.TheVariants.{Failed};

    ghost from_gives = { λ _ fault. fault ≡ Failed };

    fn from(_failed: Failed) -> ReadFault {
        ReadFault::Failed
    }
}

impl From<Memory> for ReadFault {
    ghost use Rattle.mud_world.specs.declared.whole.ReadFault.TheVariants.{Memory};

    ghost from_gives = { λ _ fault. fault ≡ Memory };

    fn from(_memory: Memory) -> ReadFault {
        ReadFault::Memory
    }
}

/// Writes the whole line to the connection, or a first part of it and then fails.
pub fn say<D: Door>(door: &mut D, line: &[u8]) -> Result<(), Failed>
    ensures ok { D.tells → OnOk result ((D.view door.new).state ≡ put_out line.now (D.view door.old).state) }
    ensures part { D.tells → OnErr result (WrotePart line.now (D.view door.old).state (D.view door.new).state) }
    ensures nowhere { D.tells → (D.view door.old).state.stands ≡ false → OnOk result (line.now ≡ []) }
    ensures cause { Counts (is_err result) (D.view door.old).writes (D.view door.new).writes }
    ensures stop { OnErr result (StopsAtFailure (D.view door.new).failed (D.view door.old).writes (D.view door.new).writes) }
    ensures turns { (D.view door.new).turns ≡ (D.view door.old).turns }
    ensures reads { (D.view door.new).reads ≡ (D.view door.old).reads }
{
    let mut at = 0;
    while at < line.len() {
        at += door.write(&line[at..])?;
    }
    Ok(())
}

/// The octets of the connection up to its end, but at most one more than `most`: where the answer
/// has at most `most` octets, the connection was read to its end. After an error a first part of
/// those octets is taken.
pub fn read_whole<D: Door>(alloc: Global, door: &mut D, most: usize) -> Result<Bytes, ReadFault>
    ensures octets { D.tells → IfOk result (λ octets. ReadWhole octets most (D.view door.old).state (D.view door.new).state) }
    ensures within { IfOk result (λ octets. length octets ≤ most + 1) }
    ensures part { D.tells → OnErr result (TookPart (most + 1) (D.view door.old).state (D.view door.new).state) }
    ensures cause { Counts (has_failed result) (D.view door.old).reads (D.view door.new).reads }
    ensures stop { IsTrue (has_failed result) → StopsAtFailure (D.view door.new).failed (D.view door.old).reads (D.view door.new).reads }
    ensures turns { (D.view door.new).turns ≡ (D.view door.old).turns }
    ensures writes { (D.view door.new).writes ≡ (D.view door.old).writes }
{
    let mut buffer = [0; BUFFER];
    let mut text = Bytes::empty(alloc);
    'more: while text.len() <= most {
        let room = room_for(most - text.len());
        if read_on(door, &mut buffer[..room], &mut text)? == 0 {
            return Ok(text);
        }
    }
    Ok(text)
}

/// How many octets are read at once.
const BUFFER: usize = 4096;

/// One more than `left`, but at most the buffer.
fn room_for(left: usize) -> usize
    ensures some { 0 < result }
    ensures within { result ≤ left + 1 }
    ensures buffer { result ≤ BUFFER }
    ensures last { left < BUFFER → result ≡ left + 1 }
    ensures full { BUFFER ≤ left → result ≡ BUFFER }
{
    if left < BUFFER { left + 1 } else { BUFFER }
}

/// Reads once through the buffer, and adds what was read to the text. It answers how many octets
/// that were.
fn read_on<D: Door>(door: &mut D, buffer: &mut [u8], text: &mut Bytes) -> Result<usize, ReadFault>
    ensures within { IfOk result (λ n. n ≤ length buffer.new) }
    ensures octets { D.tells → Reads (D.view door.old).state (D.view door.new).state result buffer.new }
    ensures text { IfOk result (λ n. text.new ≡ text.old ++ take n buffer.new) }
    ensures part { D.tells → OnErr result (TookPart (length buffer.new) (D.view door.old).state (D.view door.new).state) }
    ensures cause { Counts (has_failed result) (D.view door.old).reads (D.view door.new).reads }
    ensures stop { IsTrue (has_failed result) → StopsAtFailure (D.view door.new).failed (D.view door.old).reads (D.view door.new).reads }
    ensures turns { (D.view door.new).turns ≡ (D.view door.old).turns }
    ensures writes { (D.view door.new).writes ≡ (D.view door.old).writes }
{
    let count = door.read(buffer)?;
    text.append(&buffer[..count])?;
    Ok(count)
}
