//! Items of stores, octet for octet.
use crate::bulb::{BULB, SWITCH};
use crate::memory::Kept;

/// The class of DNS servers, with the address 192.0.2.53.
pub(crate) const CLASS_ITEM: Kept<'static> = (
    3,
    b"\x01urn:ietf:params:mud:dns",
    &[b"\x01\x00\x01\x04\xc0\x00\x02\x35"],
);

/// The local network 192.0.2.0/24.
pub(crate) const LOCALS_ITEM: Kept<'static> = (4, b"", &[b"\x01\x00\x01\x04\xc0\x00\x02\x00\x18"]);

/// The moments of the last change.
pub(crate) const AT_5: Kept<'static> = (6, b"", &[b"\x01\x00\x00\x00\x00\x00\x00\x00\x05"]);

pub(crate) const AT_6: Kept<'static> = (6, b"", &[b"\x01\x00\x00\x00\x00\x00\x00\x00\x06"]);

pub(crate) const AT_25: Kept<'static> = (6, b"", &[b"\x01\x00\x00\x00\x00\x00\x00\x00\x19"]);

pub(crate) const AT_26: Kept<'static> = (6, b"", &[b"\x01\x00\x00\x00\x00\x00\x00\x00\x1a"]);

pub(crate) const AT_1000: Kept<'static> = (6, b"", &[b"\x01\x00\x00\x00\x00\x00\x00\x03\xe8"]);

pub(crate) const AT_1010: Kept<'static> = (6, b"", &[b"\x01\x00\x00\x00\x00\x00\x00\x03\xf2"]);

pub(crate) const AT_1060: Kept<'static> = (6, b"", &[b"\x01\x00\x00\x00\x00\x00\x00\x04\x24"]);

pub(crate) const AT_2000: Kept<'static> = (6, b"", &[b"\x01\x00\x00\x00\x00\x00\x00\x07\xd0"]);

pub(crate) const AT_2001: Kept<'static> = (6, b"", &[b"\x01\x00\x00\x00\x00\x00\x00\x07\xd1"]);

/// The URLs of the bulb and of the switch.
pub(crate) const BULB_URL: &[u8] = b"https://lighting.example.com/lightbulb2000";

pub(crate) const SWITCH_URL: &[u8] = b"https://lighting.example.com/switch1";

/// The bulb, which isn't held, with a lease of 192.0.2.10 until 87400.
pub(crate) const BULB_THING: Kept<'static> = (
    1,
    b"\x02\x00\x00\x00\x00\x01",
    &[
        b"\x02\x00\x00\x00\x2a",
        BULB_URL,
        b"\x00\x00\x01\x04\xc0\x00\x02\x0a\x00\x00\x00\x00\x00\x01\x55\x68\x00",
    ],
);

/// The same, but held.
pub(crate) const HELD_THING: Kept<'static> = (
    1,
    b"\x02\x00\x00\x00\x00\x01",
    &[
        b"\x02\x00\x00\x00\x2a",
        BULB_URL,
        b"\x00\x00\x01\x04\xc0\x00\x02\x0a\x00\x00\x00\x00\x00\x01\x55\x68\x01",
    ],
);

/// The switch, with a lease of 192.0.2.11 until 87400.
pub(crate) const SWITCH_THING: Kept<'static> = (
    1,
    b"\x02\x00\x00\x00\x00\x02",
    &[
        b"\x02\x00\x00\x00\x24",
        SWITCH_URL,
        b"\x00\x00\x01\x04\xc0\x00\x02\x0b\x00\x00\x00\x00\x00\x01\x55\x68\x00",
    ],
);

/// Their files, fetched at 1000 and approved without a signature.
pub(crate) const BULB_FILE: Kept<'static> = (
    2,
    BULB_URL,
    &[
        b"\x01\x01\x00\x00\x00\x00\x00\x00\x03\xe8\x02\x00\x00\x04\x3d",
        BULB,
        b"\x00",
    ],
);

pub(crate) const SWITCH_FILE: Kept<'static> = (
    2,
    SWITCH_URL,
    &[
        b"\x01\x01\x00\x00\x00\x00\x00\x00\x03\xe8\x02\x00\x00\x02\x98",
        SWITCH,
        b"\x00",
    ],
);

/// The name of the bulb's server, at 198.51.100.7 until 1060.
pub(crate) const NAME: Kept<'static> = (
    5,
    b"test.example.com",
    &[b"\x01\x00\x01\x04\xc6\x33\x64\x07\x00\x00\x00\x00\x00\x00\x04\x24"],
);

/// What a store keeps that was last changed at 1000: the bulb, its file, its resolver, and the name of
/// its server.
pub(crate) static HOME: [Kept<'static>; 5] = [BULB_THING, BULB_FILE, CLASS_ITEM, NAME, AT_1000];
