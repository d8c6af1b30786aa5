//! A capture over a source of its own, which no command has: each call with ample memory, and a read
//! that fails.
use crate::doors::failing_door;
use mud_world::MemoryDoor;
use pcap_read::{CapFault, Capture};
use std::test::Fail;

/// The header of a capture in microseconds, with the least significant octet first, and a packet of
/// two octets at the second 1059, twice.
const CAPTURE: [u8; 60] = [
    0xD4, 0xC3, 0xB2, 0xA1, 2, 0, 4, 0, 0, 0, 0, 0, 0, 0, 0, 0, 0, 0, 4, 0, 1, 0, 0, 0, //
    0x23, 4, 0, 0, 9, 0, 0, 0, 2, 0, 0, 0, 8, 0, 0, 0, 1, 2, //
    0x23, 4, 0, 0, 9, 0, 0, 0, 2, 0, 0, 0, 8, 0, 0, 0, 1, 2,
];

/// Whether it goes on to the second packet without a further read, and then to its failure.
fn goes_on(capture: &mut Capture<MemoryDoor>) -> bool {
    let is_first = match capture.advance() {
        Ok(true) => capture.packet().at == 24 && capture.packet().seconds == 1059,
        _ => false,
    };
    let is_ready = capture.is_ready();
    let is_second = matches!(capture.next(), Ok(Some(packet)) if packet.number == 2);
    let is_written = matches!(capture.write(b"done"), Ok(4));
    let has_failed = matches!(capture.advance(), Err(CapFault::ReadFault));
    is_first && is_ready && is_second && is_written && has_failed
}

#[test]
fn packets_and_a_failed_read(rt: HostRuntime) -> Result<(), Fail> {
    let mut capture = Capture::new(rt.alloc(), failing_door(rt.alloc(), &CAPTURE)?)?;
    let is_read = goes_on(&mut capture);
    drop(capture);
    assert!(rt; is_read);
    Ok(())
}
