//! A capture in pcapng over a source of its own, which no command has: each call with ample memory,
//! and a read that fails.
use crate::doors::failing_door;
use mud_world::MemoryDoor;
use pcapng_read::{NgCapture, NgFault};
use std::test::Fail;

/// A section with the least significant octet first, an interface of Ethernet (link type 1) whose
/// moments are microseconds, and a packet of two octets at the second 1059, twice.
const CAPTURE: [u8; 120] = [
    0x0A, 0x0D, 0x0D, 0x0A, 28, 0, 0, 0, 0x4D, 0x3C, 0x2B, 0x1A, 1, 0, 0, 0, //
    0xFF, 0xFF, 0xFF, 0xFF, 0xFF, 0xFF, 0xFF, 0xFF, 28, 0, 0, 0, //
    1, 0, 0, 0, 20, 0, 0, 0, 1, 0, 0, 0, 0, 0, 4, 0, 20, 0, 0, 0, //
    6, 0, 0, 0, 36, 0, 0, 0, 0, 0, 0, 0, 0, 0, 0, 0, 0xC0, 0x0E, 0x1F, 0x3F, //
    2, 0, 0, 0, 2, 0, 0, 0, 1, 2, 0, 0, 36, 0, 0, 0, //
    6, 0, 0, 0, 36, 0, 0, 0, 0, 0, 0, 0, 0, 0, 0, 0, 0xC0, 0x0E, 0x1F, 0x3F, //
    2, 0, 0, 0, 2, 0, 0, 0, 1, 2, 0, 0, 36, 0, 0, 0,
];

/// Whether it goes on to the second packet without a further read, and then to its failure.
fn goes_on(capture: &mut NgCapture<MemoryDoor>) -> bool {
    let is_first = match capture.advance() {
        Ok(true) => capture.packet().at == 48 && capture.packet().seconds == 1059,
        _ => false,
    };
    let is_ready = capture.is_ready();
    let is_second = matches!(capture.next(), Ok(Some(packet)) if packet.number == 2);
    let is_written = matches!(capture.write(b"done"), Ok(4));
    let has_failed = matches!(capture.advance(), Err(NgFault::ReadFault));
    is_first && is_ready && is_second && is_written && has_failed
}

#[test]
fn pcapng_packets_and_a_failed_read(rt: HostRuntime) -> Result<(), Fail> {
    let mut capture = NgCapture::new(rt.alloc(), failing_door(rt.alloc(), &CAPTURE)?)?;
    let is_read = goes_on(&mut capture);
    drop(capture);
    assert!(rt; is_read);
    Ok(())
}
