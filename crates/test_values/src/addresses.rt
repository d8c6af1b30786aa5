//! Rows of RFC 4291 and RFC 5952, read and written by the code.
use mud_base::{Bytes, Memory, addr_of, addr_text, prefix_of, prefix_text};
use std::alloc::Global;

/// Texts of addresses and of prefixes, and how those are written.
static TEXTS: [(&str, &str); 22] = [
    // RFC 5952, section 4.
    ("2001:0db8::0001", "2001:db8::1"),
    ("2001:db8:0:0:0:0:2:1", "2001:db8::2:1"),
    ("2001:db8::1:1:1:1:1", "2001:db8:0:1:1:1:1:1"),
    ("2001:0:0:1:0:0:0:1", "2001:0:0:1::1"),
    ("2001:db8:0:0:1:0:0:1", "2001:db8::1:0:0:1"),
    ("2001:DB8::1", "2001:db8::1"),
    // RFC 4291, section 2.2.
    (
        "ABCD:EF01:2345:6789:ABCD:EF01:2345:6789",
        "abcd:ef01:2345:6789:abcd:ef01:2345:6789",
    ),
    ("2001:DB8:0:0:8:800:200C:417A", "2001:db8::8:800:200c:417a"),
    ("FF01:0:0:0:0:0:0:101", "ff01::101"),
    ("0:0:0:0:0:0:0:1", "::1"),
    ("0:0:0:0:0:0:0:0", "::"),
    ("::13.1.68.3", "::d01:4403"),
    ("::FFFF:129.144.52.38", "::ffff:8190:3426"),
    ("192.0.2.1", "192.0.2.1"),
    ("255.255.255.255", "255.255.255.255"),
    // RFC 4291, section 2.3.
    (
        "2001:0DB8:0000:CD30:0000:0000:0000:0000/60",
        "2001:db8:0:cd30::/60",
    ),
    ("2001:0DB8::CD30:0:0:0:0/60", "2001:db8:0:cd30::/60"),
    ("2001:0DB8:0:CD30::/60", "2001:db8:0:cd30::/60"),
    ("2001:0DB8::CD30/60", "2001:db8::/60"),
    // Bits behind the length are cleared.
    ("192.0.2.130/25", "192.0.2.128/25"),
    ("192.0.2.130/0", "0.0.0.0/0"),
    ("::1/0", "::/0"),
];

/// Whether this text came out.
fn is_text(out: Result<Bytes, Memory>, written: &[u8]) -> bool {
    matches!(out, Ok(out) if out.octets() == written)
}

/// Whether this is the text of the prefix or of the address that is read of the other.
fn is_rewritten(alloc: Global, text: &[u8], written: &[u8]) -> bool {
    if let Some(prefix) = prefix_of(text) {
        return is_text(prefix_text(alloc, prefix), written);
    }
    match addr_of(text) {
        Some(addr) => is_text(addr_text(alloc, addr), written),
        None => false,
    }
}

#[test]
fn addresses_and_prefixes_are_rewritten(rt: HostRuntime) {
    for (text, written) in &TEXTS {
        assert!(rt;
            is_rewritten(rt.alloc(), text.as_bytes(), written.as_bytes()),
            "at {text}"
        );
    }
}
