//! Two requests on one connection, cut at each offset, and with each call of the door and of the
//! keeper failing.
use crate::items::{AT_5, AT_6, CLASS_ITEM, LOCALS_ITEM};
use crate::memory::{Call, Kept, NONE, Run, door_to, outside_of};
use crate::requests::{BOUND_BODY, BOUND_HEAD, CLASS, LOCALS, SET_BODY, SET_HEAD, UNKEPT};
use crate::runs::{check_in, check_with};
use std::alloc::Global;
use std::process::Abort;

/// What is written and kept where both requests are carried out.
const WRITTEN: &[&[&[u8]]] = &[&[SET_HEAD, SET_BODY, BOUND_HEAD, BOUND_BODY]];

const KEPT: &[Kept<'static>] = &[CLASS_ITEM, LOCALS_ITEM, AT_6];

/// They are replayed, and nothing is written or kept.
const NOTHING: Run<'static> = Run {
    words: &["replay", ":memory:"],
    connections: &[],
    second: 1,
    failing: NONE,
    status: 0,
    written: &[&[]],
    changed: &[],
};

/// Both are answered, and kept.
const ALL: Run<'static> = Run {
    written: WRITTEN,
    changed: KEPT,
    ..NOTHING
};

/// Both requests on one connection, in one piece each.
static ONE: [&[&[u8]]; 1] = [&[LOCALS, CLASS]];

/// Both requests.
static REQUESTS: [&[u8]; 2] = [LOCALS, CLASS];

/// What comes of them, however they are cut.
static ANSWERED: Run<'static> = ALL;

/// Replays the connection of these pieces over a store that keeps nothing: both requests are
/// answered.
fn check_cut(rt: &impl Abort, alloc: Global, number: usize, pieces: &[&[u8]]) {
    let mut outside = outside_of(rt, alloc, &ONE, &[], &[], &ANSWERED);
    outside.door = door_to(rt, alloc, pieces, NONE);
    check_in(rt, alloc, number, &mut outside, &[], &ANSWERED);
}

#[test]
fn the_first_request_is_cut_anywhere(rt: HostRuntime) {
    let [cut, whole] = REQUESTS;
    for at in 0..=cut.len() {
        let (first, second) = cut.split_at(at);
        check_cut(&rt, rt.alloc(), at, &[first, second, whole]);
    }
}

#[test]
fn the_second_request_is_cut_anywhere(rt: HostRuntime) {
    let [whole, cut] = REQUESTS;
    for at in 0..=cut.len() {
        let (first, second) = cut.split_at(at);
        check_cut(&rt, rt.alloc(), at, &[whole, first, second]);
    }
}

/// What comes of it where one call fails. The request whose answer isn't written stays carried out,
/// and none behind it is; where a read fails, what was read before is answered. Of a change that
/// couldn't be kept nothing stays, and the next one is made again.
static FAILURES: [Run<'static>; 13] = [
    Run {
        failing: (Call::Open, 1),
        status: 7,
        written: &[&[]],
        changed: &[],
        ..NOTHING
    },
    Run {
        failing: (Call::Apply, 1),
        status: 0,
        written: &[&[UNKEPT, BOUND_HEAD, BOUND_BODY]],
        changed: &[CLASS_ITEM, AT_6],
        ..NOTHING
    },
    Run {
        failing: (Call::Apply, 2),
        status: 0,
        written: &[&[SET_HEAD, SET_BODY, UNKEPT]],
        changed: &[LOCALS_ITEM, AT_5],
        ..NOTHING
    },
    Run {
        failing: (Call::Apply, 3),
        ..ALL
    },
    Run {
        failing: (Call::Read, 1),
        status: 4,
        written: &[&[]],
        changed: &[],
        ..NOTHING
    },
    Run {
        failing: (Call::Read, 2),
        status: 4,
        written: &[&[SET_HEAD, SET_BODY]],
        changed: &[LOCALS_ITEM, AT_5],
        ..NOTHING
    },
    Run {
        failing: (Call::Read, 3),
        status: 4,
        written: WRITTEN,
        changed: KEPT,
        ..NOTHING
    },
    Run {
        failing: (Call::Read, 4),
        ..ALL
    },
    Run {
        failing: (Call::Write, 1),
        status: 4,
        written: &[&[]],
        changed: &[LOCALS_ITEM, AT_5],
        ..NOTHING
    },
    Run {
        failing: (Call::Write, 2),
        status: 4,
        written: &[&[SET_HEAD]],
        changed: &[LOCALS_ITEM, AT_5],
        ..NOTHING
    },
    Run {
        failing: (Call::Write, 3),
        status: 4,
        written: &[&[SET_HEAD, SET_BODY]],
        changed: KEPT,
        ..NOTHING
    },
    Run {
        failing: (Call::Write, 4),
        status: 4,
        written: &[&[SET_HEAD, SET_BODY, BOUND_HEAD]],
        changed: KEPT,
        ..NOTHING
    },
    Run {
        failing: (Call::Write, 5),
        ..ALL
    },
];

#[test]
fn each_call_fails(rt: HostRuntime) {
    for (number, run) in FAILURES.iter().enumerate() {
        check_with(&rt, rt.alloc(), number, &ONE, &[], &[], run);
    }
}

/// The second request once more on the connection.
static REPEATED: [&[&[u8]]; 1] = [&[LOCALS, CLASS, CLASS]];

/// It is answered with 503, and then with its answer.
static ANEW: Run<'static> = Run {
    failing: (Call::Apply, 2),
    written: &[&[SET_HEAD, SET_BODY, UNKEPT, BOUND_HEAD, BOUND_BODY]],
    ..ALL
};

#[test]
fn a_change_is_asked_for_again(rt: HostRuntime) {
    check_with(&rt, rt.alloc(), 0, &REPEATED, &[], &[], &ANEW);
}
