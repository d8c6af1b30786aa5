//! The four lists of a bulb: before and after the name of its server ends, while it is held, and with
//! each call of the keeper and of the door failing.
use crate::items::{AT_1000, AT_1060, BULB_FILE, BULB_THING, CLASS_ITEM, HELD_THING, HOME, NAME};
use crate::memory::{Call, Kept, NONE, Run};
use crate::runs::{check, check_runs};

/// What stands between the items of the lists.
const OPENING: &[u8] = br#"{"ietf-access-control-list:acls":{"acl":[{"aces":{"ace":["#;

const BEFORE_TO: &[u8] =
    br#"]},"name":"from-v4","type":"ipv4-acl-type"},{"aces":{"ace":[]},"name":"from-v6","type":"ipv6-acl-type"},{"aces":{"ace":["#;

const ENDING: &[u8] =
    b"]},\"name\":\"to-v4\",\"type\":\"ipv4-acl-type\"},{\"aces\":{\"ace\":[]},\"name\":\"to-v6\",\"type\":\"ipv6-acl-type\"}]}}\n";

/// The items of what the bulb sends: to its server, to Things of its maker, and to the resolver.
const TO_SERVER: &[u8] =
    br#"{"actions":{"forwarding":"accept"},"matches":{"ipv4":{"destination-ipv4-network":"198.51.100.7/32","protocol":6},"tcp":{"destination-port":{"operator":"eq","port":443},"ietf-mud:direction-initiated":"from-device"}},"name":"e1-1"},"#;

const TO_SAME_MAKER: &[u8] =
    br#"{"actions":{"forwarding":"accept"},"matches":{"ipv4":{"destination-ipv4-network":"192.0.2.10/32"}},"name":"e2-1"},"#;

const TO_RESOLVER: &[u8] =
    br#"{"actions":{"forwarding":"accept"},"matches":{"ipv4":{"destination-ipv4-network":"192.0.2.53/32"},"udp":{"destination-port":{"operator":"eq","port":53}}},"name":"dns-1"}"#;

/// The items of what is sent to it: by its server, and by the resolver.
const BY_SERVER: &[u8] =
    br#"{"actions":{"forwarding":"accept"},"matches":{"ipv4":{"protocol":6,"source-ipv4-network":"198.51.100.7/32"},"tcp":{"ietf-mud:direction-initiated":"from-device","source-port":{"operator":"eq","port":443}}},"name":"e1-1"},"#;

const BY_RESOLVER: &[u8] =
    br#"{"actions":{"forwarding":"accept"},"matches":{"ipv4":{"source-ipv4-network":"192.0.2.53/32"},"udp":{"source-port":{"operator":"eq","port":53}}},"name":"dns-1"}"#;

/// What a store keeps whose last change was at 1060, and one whose bulb is held.
static CHANGED_AT_1060: [Kept<'static>; 5] = [BULB_THING, BULB_FILE, CLASS_ITEM, NAME, AT_1060];

static HELD: [Kept<'static>; 5] = [HELD_THING, BULB_FILE, CLASS_ITEM, NAME, AT_1000];

/// The lists at the last second of the name.
const LISTED: Run<'static> = Run {
    words: &["export", ":memory:", "02:00:00:00:00:01"],
    connections: &[&[]],
    second: 1059,
    failing: NONE,
    status: 0,
    written: &[&[
        OPENING,
        TO_SERVER,
        TO_SAME_MAKER,
        TO_RESOLVER,
        BEFORE_TO,
        BY_SERVER,
        BY_RESOLVER,
        ENDING,
    ]],
    changed: &[],
};

/// The lists behind it.
const ENDED: Run<'static> = Run {
    second: 1060,
    written: &[&[
        OPENING,
        TO_SAME_MAKER,
        TO_RESOLVER,
        BEFORE_TO,
        BY_RESOLVER,
        ENDING,
    ]],
    ..LISTED
};

/// There is no such Thing.
const NO_THING: Run<'static> = Run {
    words: &["export", ":memory:", "02:00:00:00:00:09"],
    status: 3,
    written: &[&[b"fault NoThing\n"]],
    ..LISTED
};

static RUNS: [Run<'static>; 7] = [
    LISTED,
    ENDED,
    NO_THING,
    // What is no hardware address is no command.
    Run {
        words: &["export", ":memory:", "02:00:00:00:00"],
        status: 2,
        written: &[&[]],
        ..LISTED
    },
    Run {
        failing: (Call::Open, 1),
        status: 7,
        written: &[&[]],
        ..LISTED
    },
    Run {
        failing: (Call::Write, 1),
        status: 4,
        written: &[&[]],
        ..LISTED
    },
    Run {
        failing: (Call::Write, 1),
        status: 4,
        written: &[&[]],
        ..NO_THING
    },
];

#[test]
fn the_lists_of_a_thing_are_written(rt: HostRuntime) {
    check_runs(&rt, rt.alloc(), &HOME, &RUNS);
}

/// The last change is later than the clock, so the lists are those of its moment.
static LATER: Run<'static> = Run {
    second: 1059,
    ..ENDED
};

#[test]
fn no_list_is_of_a_moment_before_the_last_change(rt: HostRuntime) {
    check(&rt, rt.alloc(), 0, &CHANGED_AT_1060, &LATER);
}

/// The lists of what is held are empty.
static EMPTY: Run<'static> = Run {
    written: &[&[OPENING, BEFORE_TO, ENDING]],
    ..LISTED
};

#[test]
fn what_is_held_has_empty_lists(rt: HostRuntime) {
    check(&rt, rt.alloc(), 0, &HELD, &EMPTY);
}
