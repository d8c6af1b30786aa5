//! Two connections of a port with a request on each, and with each call of the door and of the keeper
//! failing.
use crate::items::{AT_6, AT_25, AT_26, CLASS_ITEM, LOCALS_ITEM};
use crate::memory::{Call, Kept, NONE, Run};
use crate::requests::{BOUND_BODY, BOUND_HEAD, CLASS, LOCALS, SET_BODY, SET_HEAD, UNKEPT};
use crate::runs::check_with;

/// The two connections.
static CONNECTIONS: [&[&[u8]]; 2] = [&[LOCALS], &[CLASS]];

/// They are served, and nothing is written or kept.
const NOTHING: Run<'static> = Run {
    words: &["serve", ":memory:", "8080", "2"],
    connections: &[],
    second: 25,
    failing: NONE,
    status: 0,
    written: &[&[], &[]],
    changed: &[],
};

/// What is kept where both are carried out, at the moments of the clock and not those of the requests.
const KEPT: &[Kept<'static>] = &[CLASS_ITEM, LOCALS_ITEM, AT_26];

/// Both are answered.
const ALL: Run<'static> = Run {
    written: &[&[SET_HEAD, SET_BODY], &[BOUND_HEAD, BOUND_BODY]],
    changed: KEPT,
    ..NOTHING
};

/// What comes of it where one call fails. A connection whose read or write fails is over, and the next
/// one is served. The clock is asked only for a request that is whole.
static FAILURES: [Run<'static>; 18] = [
    Run {
        failing: (Call::Open, 1),
        status: 7,
        written: &[&[], &[]],
        changed: &[],
        ..NOTHING
    },
    Run {
        failing: (Call::Apply, 1),
        status: 0,
        written: &[&[UNKEPT], &[BOUND_HEAD, BOUND_BODY]],
        changed: &[CLASS_ITEM, AT_26],
        ..NOTHING
    },
    Run {
        failing: (Call::Apply, 2),
        status: 0,
        written: &[&[SET_HEAD, SET_BODY], &[UNKEPT]],
        changed: &[LOCALS_ITEM, AT_25],
        ..NOTHING
    },
    Run {
        failing: (Call::Bind, 1),
        status: 4,
        written: &[&[], &[]],
        changed: &[],
        ..NOTHING
    },
    Run {
        failing: (Call::Next, 1),
        status: 4,
        written: &[&[], &[]],
        changed: &[],
        ..NOTHING
    },
    Run {
        failing: (Call::Next, 2),
        status: 4,
        written: &[&[SET_HEAD, SET_BODY], &[]],
        changed: &[LOCALS_ITEM, AT_25],
        ..NOTHING
    },
    Run {
        failing: (Call::Next, 3),
        ..ALL
    },
    Run {
        failing: (Call::Read, 1),
        status: 0,
        written: &[&[], &[BOUND_HEAD, BOUND_BODY]],
        changed: &[CLASS_ITEM, AT_25],
        ..NOTHING
    },
    Run {
        failing: (Call::Read, 2),
        ..ALL
    },
    Run {
        failing: (Call::Read, 3),
        status: 0,
        written: &[&[SET_HEAD, SET_BODY], &[]],
        changed: &[LOCALS_ITEM, AT_25],
        ..NOTHING
    },
    Run {
        failing: (Call::Read, 4),
        ..ALL
    },
    Run {
        failing: (Call::Read, 5),
        ..ALL
    },
    Run {
        failing: (Call::Write, 1),
        status: 0,
        written: &[&[], &[BOUND_HEAD, BOUND_BODY]],
        changed: KEPT,
        ..NOTHING
    },
    Run {
        failing: (Call::Write, 2),
        status: 0,
        written: &[&[SET_HEAD], &[BOUND_HEAD, BOUND_BODY]],
        changed: KEPT,
        ..NOTHING
    },
    Run {
        failing: (Call::Write, 3),
        status: 0,
        written: &[&[SET_HEAD, SET_BODY], &[]],
        changed: KEPT,
        ..NOTHING
    },
    Run {
        failing: (Call::Write, 4),
        status: 0,
        written: &[&[SET_HEAD, SET_BODY], &[BOUND_HEAD]],
        changed: KEPT,
        ..NOTHING
    },
    Run {
        failing: (Call::Write, 5),
        ..ALL
    },
    // Nothing fails, and the moments of the clock are those of the requests.
    Run {
        second: 5,
        changed: &[CLASS_ITEM, LOCALS_ITEM, AT_6],
        ..ALL
    },
];

#[test]
fn each_call_fails(rt: HostRuntime) {
    for (number, run) in FAILURES.iter().enumerate() {
        check_with(&rt, rt.alloc(), number, &CONNECTIONS, &[], &[], run);
    }
}
