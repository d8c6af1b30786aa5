//! A folder that is imported, with each call of the spool and of the keeper failing.
use crate::bulb::BULB;
use crate::items::{AT_2000, AT_2001, BULB_URL};
use crate::memory::{Call, File, Kept, NONE, Run, keeper_of, outside_of};
use crate::runs::{check_over, check_with};

/// One usage file under two names, and a name that is skipped, in another order than that in which
/// they are imported.
static FILES: [File<'static>; 3] = [
    ("notes.txt", b""),
    ("1001-bulb.json", BULB),
    ("1000-bulb.json", BULB),
];

/// The file waits for its verdict, fetched at 1000 or at 1001.
const FROM_1000: Kept<'static> = (
    2,
    BULB_URL,
    &[
        b"\x01\x00\x01\x00\x00\x00\x00\x00\x00\x03\xe8\x00\x00\x04\x3d",
        BULB,
    ],
);

const FROM_1001: Kept<'static> = (
    2,
    BULB_URL,
    &[
        b"\x01\x00\x01\x00\x00\x00\x00\x00\x00\x03\xe9\x00\x00\x04\x3d",
        BULB,
    ],
);

/// What is kept where all files are imported.
const KEPT: &[Kept<'static>] = &[FROM_1001, AT_2001];

/// The folder is imported, and nothing of it is kept.
const NOTHING: Run<'static> = Run {
    words: &["import", ":memory:", "spool"],
    connections: &[&[]],
    second: 2000,
    failing: NONE,
    status: 0,
    written: &[&[]],
    changed: &[],
};

/// All files are imported.
const ALL: Run<'static> = Run {
    written: &[&[b"1000-bulb.json new\n1001-bulb.json same\nnotes.txt skipped\n"]],
    changed: KEPT,
    ..NOTHING
};

/// What comes of it where one call fails. Where the spool fails, the lines of the names before it are
/// written and their files kept; where the keeper fails, it goes on with the next name.
static FAILURES: [Run<'static>; 8] = [
    Run {
        failing: (Call::Open, 1),
        status: 7,
        written: &[&[]],
        changed: &[],
        ..NOTHING
    },
    Run {
        failing: (Call::Apply, 1),
        status: 7,
        written: &[&[b"1000-bulb.json keeper\n1001-bulb.json new\nnotes.txt skipped\n"]],
        changed: &[FROM_1001, AT_2001],
        ..NOTHING
    },
    Run {
        failing: (Call::Apply, 2),
        status: 7,
        written: &[&[b"1000-bulb.json new\n1001-bulb.json keeper\nnotes.txt skipped\n"]],
        changed: &[FROM_1000, AT_2000],
        ..NOTHING
    },
    Run {
        failing: (Call::Apply, 3),
        ..ALL
    },
    Run {
        failing: (Call::ListNames, 1),
        status: 4,
        written: &[&[]],
        changed: &[],
        ..NOTHING
    },
    Run {
        failing: (Call::ReadFile, 1),
        status: 4,
        written: &[&[]],
        changed: &[],
        ..NOTHING
    },
    Run {
        failing: (Call::ReadFile, 2),
        status: 4,
        written: &[&[b"1000-bulb.json new\n"]],
        changed: &[FROM_1000, AT_2000],
        ..NOTHING
    },
    Run {
        failing: (Call::ReadFile, 3),
        ..ALL
    },
];

#[test]
fn each_call_fails(rt: HostRuntime) {
    for (number, run) in FAILURES.iter().enumerate() {
        check_with(&rt, rt.alloc(), number, run.connections, &FILES, &[], run);
    }
}

/// All files are new, and then all are there already.
static TWICE: [Run<'static>; 2] = [
    ALL,
    Run {
        second: 3000,
        written: &[&[b"1000-bulb.json same\n1001-bulb.json same\nnotes.txt skipped\n"]],
        ..ALL
    },
];

#[test]
fn a_folder_is_imported_twice(rt: HostRuntime) {
    let alloc = rt.alloc();
    let [once, again] = &TWICE;
    let mut outside = outside_of(&rt, alloc, once.connections, &FILES, &[], once);
    let mut later = outside_of(&rt, alloc, again.connections, &FILES, &[], again);
    let keeper = keeper_of(&rt, alloc, &[], NONE);
    let keeper = check_over(&rt, alloc, 1, keeper, &mut outside, once);
    drop(check_over(&rt, alloc, 2, keeper, &mut later, again));
}
