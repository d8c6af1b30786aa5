//! Captures that are counted: of a bulb, of nothing, of two Things, over two hours, and with each call
//! of the keeper and of the door failing.
use crate::captures::{
    HEADER, QUERY, QUERY_AT_1060, QUERY_AT_3600, SYN, SYN_AT_1001, SYN_AT_1059, SYN_AT_1060,
    SYN_TO_SWITCH,
};
use crate::items::{
    AT_1000, BULB_FILE, BULB_THING, CLASS_ITEM, HOME, NAME, SWITCH_FILE, SWITCH_THING,
};
use crate::memory::{Call, Kept, NONE, Run};
use crate::runs::{check, check_runs};

/// What a store keeps where the switch is in the same network.
static BOTH: [Kept<'static>; 7] = [
    BULB_THING,
    SWITCH_THING,
    BULB_FILE,
    SWITCH_FILE,
    CLASS_ITEM,
    NAME,
    AT_1000,
];

/// The lines of the first hour, in which the bulb's server was reached once.
const FIRST_HOUR: &[u8] = b"hour 0\ncount 02:00:00:00:00:01 from accept:1 1\n";

/// The bulb's server is reached while its name holds, and not when it has ended; the resolver always.
const COUNTED: Run<'static> = Run {
    words: &["tally", ":memory:"],
    connections: &[&[
        HEADER,
        SYN_AT_1059,
        SYN,
        SYN_AT_1060,
        SYN,
        QUERY_AT_1060,
        QUERY,
    ]],
    second: 2000,
    failing: NONE,
    status: 0,
    written: &[&[
        FIRST_HOUR,
        b"count 02:00:00:00:00:01 from default-dns 1\n",
        b"count 02:00:00:00:00:01 from drop:no-match 1\n",
        b"denied 02:00:00:00:00:01 from 198.51.100.7 6 443 1\n",
        b"packets 3 unmanaged 0 link 0 unreadable 0 pass 2 drop 1 both 0\n",
    ]],
    changed: &[],
};

/// The last packet has an earlier second than the one before it, at whose moment it counts: in the
/// second hour, when the name has ended.
const TWO_HOURS: Run<'static> = Run {
    connections: &[&[
        HEADER,
        SYN_AT_1059,
        SYN,
        QUERY_AT_3600,
        QUERY,
        SYN_AT_1059,
        SYN,
    ]],
    written: &[&[
        FIRST_HOUR,
        b"hour 1\n",
        b"count 02:00:00:00:00:01 from default-dns 1\n",
        b"count 02:00:00:00:00:01 from drop:no-match 1\n",
        b"denied 02:00:00:00:00:01 from 198.51.100.7 6 443 1\n",
        b"packets 3 unmanaged 0 link 0 unreadable 0 pass 2 drop 1 both 0\n",
    ]],
    ..COUNTED
};

/// A read failed before the first hour was over.
const UNREAD: Run<'static> = Run {
    status: 4,
    written: &[&[]],
    ..TWO_HOURS
};

static RUNS: [Run<'static>; 10] = [
    COUNTED,
    Run {
        connections: &[&[HEADER]],
        written: &[&[b"packets 0 unmanaged 0 link 0 unreadable 0 pass 0 drop 0 both 0\n"]],
        ..COUNTED
    },
    TWO_HOURS,
    // The fault of the capture stands behind the counts of what came before it.
    Run {
        connections: &[&[HEADER, SYN_AT_1059, SYN, SYN_AT_1060]],
        status: 3,
        written: &[&[
            FIRST_HOUR,
            b"packets 1 unmanaged 0 link 0 unreadable 0 pass 1 drop 0 both 0\n",
            b"fault Cut 94\n",
        ]],
        ..COUNTED
    },
    Run {
        failing: (Call::Open, 1),
        status: 7,
        written: &[&[]],
        ..COUNTED
    },
    // The first read takes four octets, and then each takes what is left of a piece.
    Run {
        failing: (Call::Read, 1),
        ..UNREAD
    },
    Run {
        failing: (Call::Read, 6),
        ..UNREAD
    },
    // The lines of an hour are written with the first packet of a later one.
    Run {
        failing: (Call::Read, 7),
        status: 4,
        written: &[&[FIRST_HOUR]],
        ..TWO_HOURS
    },
    Run {
        failing: (Call::Read, 10),
        ..TWO_HOURS
    },
    Run {
        failing: (Call::Write, 1),
        ..UNREAD
    },
];

#[test]
fn what_is_allowed_and_denied_is_counted(rt: HostRuntime) {
    check_runs(&rt, rt.alloc(), &HOME, &RUNS);
}

/// A packet between two Things has two rulings, and one of them denies it.
static BETWEEN: Run<'static> = Run {
    connections: &[&[HEADER, SYN_AT_1001, SYN_TO_SWITCH]],
    written: &[&[
        b"hour 0\n",
        b"count 02:00:00:00:00:01 from accept:2 1\n",
        b"count 02:00:00:00:00:02 to drop:no-match 1\n",
        b"denied 02:00:00:00:00:02 to 192.0.2.10 6 50000 1\n",
        b"packets 1 unmanaged 0 link 0 unreadable 0 pass 0 drop 1 both 1\n",
    ]],
    ..COUNTED
};

#[test]
fn a_packet_between_two_things_counts_for_both(rt: HostRuntime) {
    check(&rt, rt.alloc(), 0, &BOTH, &BETWEEN);
}
