//! Captures in which a resolver answers a bulb, with each call of the keeper failing, and some of the
//! door.
use crate::captures::{
    ALIAS, ANSWER, ANSWER_AT_1010, ANSWERS_AT_1010, BOTH, HEADER, LOOP, SYN_AT_1069, SYN_AT_1070,
    SYN_TO_8,
};
use crate::items::{AT_1010, HOME};
use crate::memory::{Call, Kept, NONE, Run};
use crate::runs::check_runs;

/// The name with one address more: 198.51.100.8 until 1070, or 198.51.100.9 until 1040 or 1070; and
/// with both.
const WITH_8: Kept<'static> = (
    5,
    b"test.example.com",
    &[
        b"\x01\x00\x02\x04\xc6\x33\x64\x07\x00\x00\x00\x00\x00\x00\x04\x24",
        b"\x04\xc6\x33\x64\x08\x00\x00\x00\x00\x00\x00\x04\x2e",
    ],
);

const WITH_9_TILL_1040: Kept<'static> = (
    5,
    b"test.example.com",
    &[
        b"\x01\x00\x02\x04\xc6\x33\x64\x07\x00\x00\x00\x00\x00\x00\x04\x24",
        b"\x04\xc6\x33\x64\x09\x00\x00\x00\x00\x00\x00\x04\x10",
    ],
);

const WITH_9: Kept<'static> = (
    5,
    b"test.example.com",
    &[
        b"\x01\x00\x02\x04\xc6\x33\x64\x07\x00\x00\x00\x00\x00\x00\x04\x24",
        b"\x04\xc6\x33\x64\x09\x00\x00\x00\x00\x00\x00\x04\x2e",
    ],
);

const WITH_BOTH: Kept<'static> = (
    5,
    b"test.example.com",
    &[
        b"\x01\x00\x03\x04\xc6\x33\x64\x07\x00\x00\x00\x00\x00\x00\x04\x24",
        b"\x04\xc6\x33\x64\x08\x00\x00\x00\x00\x00\x00\x04\x2e",
        b"\x04\xc6\x33\x64\x09\x00\x00\x00\x00\x00\x00\x04\x2e",
    ],
);

/// The lines of a packet in which the resolver answers, and of the address that is learnt in it.
const ANSWERED: &[u8] = b"1 1010 pass to=default-dns\n";

const LEARNT: &[u8] = b"name test.example.com 198.51.100.8 60 new\n";

/// An answer, and then the bulb begins a connection to the address, before the name ends and then.
const SNOOPED: Run<'static> = Run {
    words: &["snoop", ":memory:"],
    connections: &[&[
        HEADER,
        ANSWER_AT_1010,
        ANSWER,
        SYN_AT_1069,
        SYN_TO_8,
        SYN_AT_1070,
        SYN_TO_8,
    ]],
    second: 2000,
    failing: NONE,
    status: 0,
    written: &[&[
        ANSWERED,
        LEARNT,
        b"2 1069 pass from=accept:1\n",
        b"3 1070 drop from=drop:no-match\n",
    ]],
    changed: &[WITH_8, AT_1010],
};

/// A read failed before the first packet was whole.
const UNREAD: Run<'static> = Run {
    status: 4,
    written: &[&[]],
    changed: &[],
    ..SNOOPED
};

/// An answer with two addresses, a connection to the first of them, and an octet more.
const BOTH_LEARNT: Run<'static> = Run {
    connections: &[&[
        HEADER,
        ANSWERS_AT_1010,
        BOTH,
        SYN_AT_1069,
        SYN_TO_8,
        b"\x2e",
    ]],
    status: 3,
    written: &[&[
        ANSWERED,
        LEARNT,
        b"name test.example.com 198.51.100.9 60 new\n",
        b"2 1069 pass from=accept:1\n",
        b"fault Cut 218\n",
    ]],
    changed: &[WITH_BOTH, AT_1010],
    ..SNOOPED
};

static RUNS: [Run<'static>; 13] = [
    SNOOPED,
    // The seconds of the alias count.
    Run {
        connections: &[&[HEADER, ANSWERS_AT_1010, ALIAS]],
        written: &[&[ANSWERED, b"name test.example.com 198.51.100.9 30 new\n"]],
        changed: &[WITH_9_TILL_1040, AT_1010],
        ..SNOOPED
    },
    // A message that isn't read teaches nothing, and doesn't end the command.
    Run {
        connections: &[&[HEADER, ANSWER_AT_1010, LOOP, SYN_AT_1069, SYN_TO_8]],
        written: &[&[
            ANSWERED,
            b"dns fault Pointer 34\n",
            b"2 1069 drop from=drop:no-match\n",
        ]],
        changed: &[],
        ..SNOOPED
    },
    BOTH_LEARNT,
    // An address that couldn't be kept isn't learnt. All else is done.
    Run {
        failing: (Call::Apply, 1),
        status: 7,
        written: &[&[
            ANSWERED,
            b"name test.example.com 198.51.100.8 60 keeper\n",
            b"name test.example.com 198.51.100.9 60 new\n",
            b"2 1069 drop from=drop:no-match\n",
            b"fault Cut 218\n",
        ]],
        changed: &[WITH_9, AT_1010],
        ..BOTH_LEARNT
    },
    Run {
        failing: (Call::Apply, 2),
        status: 7,
        written: &[&[
            ANSWERED,
            LEARNT,
            b"name test.example.com 198.51.100.9 60 keeper\n",
            b"2 1069 pass from=accept:1\n",
            b"fault Cut 218\n",
        ]],
        changed: &[WITH_8, AT_1010],
        ..BOTH_LEARNT
    },
    Run {
        failing: (Call::Apply, 3),
        ..BOTH_LEARNT
    },
    // Where the store can't be opened nothing is written.
    Run {
        failing: (Call::Open, 1),
        status: 7,
        written: &[&[]],
        changed: &[],
        ..SNOOPED
    },
    // The first read takes four octets, and then each takes what is left of a piece.
    Run {
        failing: (Call::Read, 1),
        ..UNREAD
    },
    Run {
        failing: (Call::Read, 4),
        ..UNREAD
    },
    // What was read before is judged and learnt, and its lines are written.
    Run {
        failing: (Call::Read, 5),
        status: 4,
        written: &[&[ANSWERED, LEARNT]],
        ..SNOOPED
    },
    Run {
        failing: (Call::Read, 9),
        status: 4,
        ..SNOOPED
    },
    // The line says that the address is kept, so it was kept before.
    Run {
        failing: (Call::Write, 1),
        status: 4,
        written: &[&[]],
        ..SNOOPED
    },
];

#[test]
fn names_are_learnt(rt: HostRuntime) {
    check_runs(&rt, rt.alloc(), &HOME, &RUNS);
}
