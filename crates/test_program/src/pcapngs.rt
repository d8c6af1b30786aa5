//! A capture in pcapng, over a store that keeps a bulb: whole, cut, in a form that isn't read, and with
//! each call of the keeper and of the door failing.
use crate::captures::{BLOCK_AT_1059, BLOCK_END, INTERFACE, SECTION, SYN};
use crate::items::HOME;
use crate::memory::{Call, NONE, Run};
use crate::runs::check_runs;

/// The line of the one packet.
const LINE: &[u8] = b"1 1059 pass from=accept:1\n";

/// The capture is judged, and nothing fails.
const JUDGED: Run<'static> = Run {
    words: &["judge", ":memory:"],
    connections: &[&[SECTION, INTERFACE, BLOCK_AT_1059, SYN, BLOCK_END]],
    second: 2000,
    failing: NONE,
    status: 0,
    written: &[&[LINE]],
    changed: &[],
};

/// A read failed before the block of the packet was whole.
const UNREAD: Run<'static> = Run {
    status: 4,
    written: &[&[]],
    ..JUDGED
};

/// The head of the block, but of the type of simple packets.
const SIMPLE: &[u8] =
    b"\x03\x00\x00\x00\x58\x00\x00\x00\x00\x00\x00\x00\x00\x00\x00\x00\xc0\x0e\x1f\x3f\x36\x00\x00\x00\
    \x36\x00\x00\x00";

static RUNS: [Run<'static>; 16] = [
    JUDGED,
    // Without its last four octets, and then in another form.
    Run {
        connections: &[&[SECTION, INTERFACE, BLOCK_AT_1059, SYN, b"\x00\x00"]],
        status: 3,
        written: &[&[b"fault Cut 48\n"]],
        ..JUDGED
    },
    Run {
        connections: &[&[SECTION, INTERFACE, SIMPLE, SYN, BLOCK_END]],
        status: 3,
        written: &[&[b"fault PacketForm 48\n"]],
        ..JUDGED
    },
    // The other commands that read captures.
    Run {
        words: &["snoop", ":memory:"],
        ..JUDGED
    },
    Run {
        words: &["frames"],
        written: &[&[b"1 1059 packet 192.0.2.10 198.51.100.7 6 tcp 50000 443 2\n"]],
        ..JUDGED
    },
    Run {
        words: &["frames"],
        connections: &[&[SECTION, INTERFACE, BLOCK_AT_1059, SYN, b"\x00\x00"]],
        status: 3,
        written: &[&[b"fault Cut 48\n"]],
        ..JUDGED
    },
    Run {
        failing: (Call::Open, 1),
        status: 7,
        written: &[&[]],
        ..JUDGED
    },
    // The first read takes four octets, and then each takes what is left of a piece.
    Run {
        failing: (Call::Read, 1),
        ..UNREAD
    },
    Run {
        failing: (Call::Read, 2),
        ..UNREAD
    },
    Run {
        failing: (Call::Read, 4),
        ..UNREAD
    },
    Run {
        failing: (Call::Read, 6),
        ..UNREAD
    },
    // The first four octets come one by one, and the read of the third fails.
    Run {
        connections: &[&[b"\x0a", b"\x0d", b"\x0d", b"\x0a"]],
        failing: (Call::Read, 3),
        ..UNREAD
    },
    // What has fewer is read as a capture in the classic format.
    Run {
        connections: &[&[b"\x0a", b"\x0d\x0d"]],
        status: 3,
        written: &[&[b"fault Cut 0\n"]],
        ..JUDGED
    },
    // The packet was read, and its line is written before more is read.
    Run {
        failing: (Call::Read, 7),
        status: 4,
        ..JUDGED
    },
    Run {
        failing: (Call::Read, 8),
        ..JUDGED
    },
    Run {
        failing: (Call::Write, 1),
        ..UNREAD
    },
];

#[test]
fn a_capture_in_pcapng_is_judged(rt: HostRuntime) {
    check_runs(&rt, rt.alloc(), &HOME, &RUNS);
}
