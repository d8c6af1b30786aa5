//! The lines of a capture whose packets come one by one: behind the first of them no line asks for
//! memory. `rt try --test --fail-alloc N` makes the Nth allocation fail.
use mud_base::{Bytes, Listed, Memory};
use mud_world::MemoryDoor;
use pcap_read::Captured;
use run_captures::{PacketLines, write_capture};
use run_common::Status;
use std::alloc::Global;
use std::test::Fail;

/// The header of a capture in microseconds, with the least significant octet first, and a packet of
/// two octets.
const FIRST: [u8; 42] = [
    0xD4, 0xC3, 0xB2, 0xA1, 2, 0, 4, 0, 0, 0, 0, 0, 0, 0, 0, 0, 0, 0, 4, 0, 1, 0, 0, 0, //
    0x23, 4, 0, 0, 9, 0, 0, 0, 2, 0, 0, 0, 8, 0, 0, 0, 1, 2,
];

/// A packet like that.
const NEXT: [u8; 18] = [0x23, 4, 0, 0, 9, 0, 0, 0, 2, 0, 0, 0, 8, 0, 0, 0, 1, 2];

/// Writes the same line for each packet.
#[derive(Clone, Copy)]
struct SameLines;

impl PacketLines for SameLines {
    ghost use Rattle.std.specs.Prelude.{[], ◌∷◌};
    ghost use Rattle.run_captures.specs.Fold.{no_ending};

    ghost State = { Unit {0} };

    ghost keeps = { λ _ _. Unit {0} };

    ghost step = { λ s _. record { line = 42 ∷ 10 ∷ []; next = s } };

    ghost ending = { no_ending };

    fn append_line(
        &mut self,
        _alloc: Global,
        lines: &mut Bytes,
        _packet: &Captured<'_>,
    ) -> Result<(), Memory> {
        lines.append(b"*\n")
    }

    fn append_last(&self, _alloc: Global, _lines: &mut Bytes) -> Result<(), Memory> {
        Ok(())
    }
}

/// A connection at which three packets come one by one.
fn packet_door(alloc: Global) -> Result<MemoryDoor, Memory> {
    let first = Bytes::new(alloc, &FIRST)?;
    let second = Bytes::new(alloc, &NEXT)?;
    let third = Bytes::new(alloc, &NEXT)?;
    let pieces = Listed::from_vec(vec![in alloc; first, second, third]?);
    let inputs = Listed::from_vec(vec![in alloc; pieces]?);
    MemoryDoor::new(alloc, inputs, 16)
}

/// Whether all lines come, or none where there is no memory for the first.
fn all_or_none(status: Status, written: &[u8]) -> bool {
    match status {
        Status::Done => written == b"*\n*\n*\n".as_slice(),
        Status::NoMemory => written.is_empty(),
        _ => false,
    }
}

#[test]
fn no_line_behind_the_first_packet_asks_for_memory(rt: HostRuntime) -> Result<(), Fail> {
    let Ok(mut door) = packet_door(rt.alloc()) else {
        return Ok(());
    };
    let status = write_capture(rt.alloc(), &mut door, &mut SameLines);
    let is_whole = 0 < door.connection_count() && all_or_none(status, door.written(0));
    drop(door);
    assert!(rt; is_whole);
    Ok(())
}
