//! Runs over a store with one item, each of which ends with the status of its cause.
use crate::memory::{Call, Kept, NONE, Run};
use crate::runs::check;

/// A hardware address, as the key of a Thing.
const MAC: &[u8] = b"\x02\x00\x00\x00\x00\x01";

/// A Thing with a URL of 42 octets and nothing more, in the first version and in the second, which
/// says that it isn't held.
const FIRST: Kept<'static> = (
    1,
    MAC,
    &[b"\x01\x00\x00\x00\x2ahttps://lighting.example.com/lightbulb2000\x00\x00\x00"],
);

const SECOND: Kept<'static> = (
    1,
    MAC,
    &[b"\x02\x00\x00\x00\x2ahttps://lighting.example.com/lightbulb2000\x00\x00\x00\x00"],
);

/// What is no record: a hold that is neither 0 nor 1, and an empty body.
const NO_HOLD: Kept<'static> = (
    1,
    MAC,
    &[b"\x02\x00\x00\x00\x2ahttps://lighting.example.com/lightbulb2000\x00\x00\x00\x02"],
);

const NO_BODY: Kept<'static> = (1, MAC, &[]);

/// A capture of a packet at the second 1059 that the Thing sends: IPv6 (RFC 8200) with nine extension
/// headers, one of hop-by-hop options and eight of destination options.
const NINE_HEADERS: &[u8] =
    b"\xd4\xc3\xb2\xa1\x02\x00\x04\x00\x00\x00\x00\x00\x00\x00\x00\x00\x00\x00\x04\x00\x01\x00\x00\x00\
    \x23\x04\x00\x00\x00\x00\x00\x00\x7e\x00\x00\x00\x7e\x00\x00\x00\
    \x02\x00\x00\x00\x00\xfe\x02\x00\x00\x00\x00\x01\x86\xdd\
    \x60\x00\x00\x00\x00\x48\x00\x40\
    \x20\x01\x0d\xb8\x00\x00\x00\x00\x00\x00\x00\x00\x00\x00\x00\x0a\
    \x20\x01\x0d\xb8\x00\x00\x00\x00\x00\x00\x00\x00\x00\x00\x00\x35\
    \x3c\x00\x01\x04\x00\x00\x00\x00\
    \x3c\x00\x01\x04\x00\x00\x00\x00\
    \x3c\x00\x01\x04\x00\x00\x00\x00\
    \x3c\x00\x01\x04\x00\x00\x00\x00\
    \x3c\x00\x01\x04\x00\x00\x00\x00\
    \x3c\x00\x01\x04\x00\x00\x00\x00\
    \x3c\x00\x01\x04\x00\x00\x00\x00\
    \x3c\x00\x01\x04\x00\x00\x00\x00\
    \x3b\x00\x01\x04\x00\x00\x00\x00";

/// A DHCP request (RFC 2131) of a client that announces its URL, with a space and a letter behind it.
const MESSAGE: &[u8] = b"\x01\x01\x06\0\0\0\0\x01\
    \0\0\0\0\0\0\0\0\0\0\0\0\0\0\0\0\0\0\0\0\
    \x02\0\0\0\0\x01\0\0\0\0\0\0\0\0\0\0\
    \0\0\0\0\0\0\0\0\0\0\0\0\0\0\0\0\0\0\0\0\0\0\0\0\0\0\0\0\0\0\0\0\
    \0\0\0\0\0\0\0\0\0\0\0\0\0\0\0\0\0\0\0\0\0\0\0\0\0\0\0\0\0\0\0\0\
    \0\0\0\0\0\0\0\0\0\0\0\0\0\0\0\0\0\0\0\0\0\0\0\0\0\0\0\0\0\0\0\0\
    \0\0\0\0\0\0\0\0\0\0\0\0\0\0\0\0\0\0\0\0\0\0\0\0\0\0\0\0\0\0\0\0\
    \0\0\0\0\0\0\0\0\0\0\0\0\0\0\0\0\0\0\0\0\0\0\0\0\0\0\0\0\0\0\0\0\
    \0\0\0\0\0\0\0\0\0\0\0\0\0\0\0\0\0\0\0\0\0\0\0\0\0\0\0\0\0\0\0\0\
    \x63\x82\x53\x63\x35\x01\x03\xa1\x2chttps://lighting.example.com/lightbulb2000 x\xff";

/// 200 lists, each in the one before.
const NESTED: &[u8] = b"[[[[[[[[[[[[[[[[[[[[[[[[[[[[[[[[[[[[[[[[[[[[[[[[[[\
    [[[[[[[[[[[[[[[[[[[[[[[[[[[[[[[[[[[[[[[[[[[[[[[[[[\
    [[[[[[[[[[[[[[[[[[[[[[[[[[[[[[[[[[[[[[[[[[[[[[[[[[\
    [[[[[[[[[[[[[[[[[[[[[[[[[[[[[[[[[[[[[[[[[[[[[[[[[[\
    ]]]]]]]]]]]]]]]]]]]]]]]]]]]]]]]]]]]]]]]]]]]]]]]]]]\
    ]]]]]]]]]]]]]]]]]]]]]]]]]]]]]]]]]]]]]]]]]]]]]]]]]]\
    ]]]]]]]]]]]]]]]]]]]]]]]]]]]]]]]]]]]]]]]]]]]]]]]]]]\
    ]]]]]]]]]]]]]]]]]]]]]]]]]]]]]]]]]]]]]]]]]]]]]]]]]]";

/// The line of an item that is no record.
const BAD_ITEM: &[u8] = b"fault item 1 020000000001\n";

static RUNS: [(&[Kept<'static>], Run<'static>); 16] = [
    // A Thing of the first version is put anew in the second as the store is opened.
    (
        &[FIRST],
        Run {
            words: &["report", ":memory:", "things"],
            connections: &[&[]],
            second: 2000,
            failing: NONE,
            status: 0,
            written: &[&[
                b"thing 02:00:00:00:00:01 https://lighting.example.com/lightbulb2000 - -\n",
            ]],
            changed: &[SECOND],
        },
    ),
    (
        &[FIRST],
        Run {
            words: &["report", ":memory:", "things"],
            connections: &[&[]],
            second: 2000,
            failing: (Call::Apply, 1),
            status: 7,
            written: &[&[]],
            changed: &[],
        },
    ),
    // One of the second version is not: a change would fail.
    (
        &[SECOND],
        Run {
            words: &["report", ":memory:", "things"],
            connections: &[&[]],
            second: 2000,
            failing: (Call::Apply, 1),
            status: 0,
            written: &[&[
                b"thing 02:00:00:00:00:01 https://lighting.example.com/lightbulb2000 - -\n",
            ]],
            changed: &[],
        },
    ),
    (
        &[NO_HOLD],
        Run {
            words: &["report", ":memory:", "things"],
            connections: &[&[]],
            second: 2000,
            failing: NONE,
            status: 6,
            written: &[&[BAD_ITEM]],
            changed: &[],
        },
    ),
    (
        &[NO_BODY],
        Run {
            words: &["report", ":memory:", "things"],
            connections: &[&[]],
            second: 2000,
            failing: NONE,
            status: 6,
            written: &[&[BAD_ITEM]],
            changed: &[],
        },
    ),
    // Whatever opens a store says so where the keeper fails.
    (
        &[SECOND],
        Run {
            words: &["report", ":memory:", "due"],
            connections: &[&[]],
            second: 2000,
            failing: (Call::Open, 1),
            status: 7,
            written: &[&[]],
            changed: &[],
        },
    ),
    (
        &[SECOND],
        Run {
            words: &["judge", ":memory:"],
            connections: &[&[NINE_HEADERS]],
            second: 2000,
            failing: (Call::Open, 1),
            status: 7,
            written: &[&[]],
            changed: &[],
        },
    ),
    (
        &[SECOND],
        Run {
            words: &["replay", ":memory:"],
            connections: &[&[]],
            second: 2000,
            failing: (Call::Open, 1),
            status: 7,
            written: &[&[]],
            changed: &[],
        },
    ),
    (
        &[SECOND],
        Run {
            words: &["drill", "1"],
            connections: &[&[]],
            second: 2000,
            failing: (Call::Open, 1),
            status: 7,
            written: &[&[]],
            changed: &[],
        },
    ),
    // What has something isn't drilled.
    (
        &[SECOND],
        Run {
            words: &["drill", "1"],
            connections: &[&[]],
            second: 2000,
            failing: NONE,
            status: 3,
            written: &[&[b"fault NotEmpty\n"]],
            changed: &[],
        },
    ),
    // Input that is hostile.
    (
        &[SECOND],
        Run {
            words: &["judge", ":memory:"],
            connections: &[&[NINE_HEADERS]],
            second: 2000,
            failing: NONE,
            status: 0,
            written: &[&[b"1 1059 drop unreadable extension\n"]],
            changed: &[],
        },
    ),
    (
        &[FIRST],
        Run {
            words: &["check"],
            connections: &[&[NESTED]],
            second: 2000,
            failing: NONE,
            status: 3,
            written: &[&[b"fault Json\n"]],
            changed: &[],
        },
    ),
    // Without a store the keeper isn't called.
    (
        &[FIRST],
        Run {
            words: &["check"],
            connections: &[&[NESTED]],
            second: 2000,
            failing: (Call::Read, 1),
            status: 4,
            written: &[&[]],
            changed: &[],
        },
    ),
    (
        &[FIRST],
        Run {
            words: &["hear", "dhcp"],
            connections: &[&[MESSAGE]],
            second: 2000,
            failing: NONE,
            status: 0,
            written: &[&[b"url 02:00:00:00:00:01 https://lighting.example.com/lightbulb2000\n"]],
            changed: &[],
        },
    ),
    (
        &[FIRST],
        Run {
            words: &["hear", "dhcp"],
            connections: &[&[]],
            second: 2000,
            failing: NONE,
            status: 3,
            written: &[&[b"fault Cut 0\n"]],
            changed: &[],
        },
    ),
    (
        &[FIRST],
        Run {
            words: &["serve", ":memory:", "0", "1"],
            connections: &[&[]],
            second: 2000,
            failing: NONE,
            status: 2,
            written: &[&[]],
            changed: &[],
        },
    ),
];

#[test]
fn each_status_has_its_cause(rt: HostRuntime) {
    for (number, (kept, run)) in RUNS.iter().enumerate() {
        check(&rt, rt.alloc(), number, kept, run);
    }
}
