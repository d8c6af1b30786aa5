//! What dnsmasq 2.90 answers, and what tshark 4.0.17 reads in it; and, by RFC 1035, an alias and a
//! pointer to itself.
use dns_snoop::{DnsFault, read_answers};
use mud_base::Addr;
use std::alloc::Global;

/// A message, the name that was asked for, and the addresses that it has for so many seconds.
type Told = (&'static [u8], &'static [u8], &'static [(Addr, u32)]);

/// Of each the last octets are its EDNS record (RFC 6891).
static ANSWERS: [Told; 3] = [
    (
        b"\x11\x8d\x85\x80\0\x01\0\x01\0\0\0\x01\x04test\x07example\x03com\0\0\x01\0\x01\xc0\x0c\0\x01\0\x01\0\0\0\x3c\0\x04\xc6\x33\x64\x07\0\0\x29\x04\xd0\0\0\0\0\0\0",
        b"test.example.com",
        &[(Addr::V4(0xC633_6407), 60)],
    ),
    (
        b"\xdd\x15\x85\x80\0\x01\0\x02\0\0\0\x01\x03www\x07example\x03com\0\0\x01\0\x01\xc0\x0c\0\x05\0\x01\0\0\0\x3c\0\x12\x04test\x07example\x03com\0\xc0\x2d\0\x01\0\x01\0\0\0\x3c\0\x04\xc6\x33\x64\x07\0\0\x29\x04\xd0\0\0\0\0\0\0",
        b"www.example.com",
        &[(Addr::V4(0xC633_6407), 60)],
    ),
    (
        b"\x47\x71\x85\x80\0\x01\0\x04\0\0\0\x01\x02a0\x07example\x03com\0\0\x01\0\x01\xc0\x0c\0\x05\0\x01\0\0\0\x1e\0\x10\x02a1\x07example\x03com\0\xc0\x2c\0\x05\0\x01\0\0\0\x3c\0\x11\x03www\x07example\x03com\0\xc0\x48\0\x05\0\x01\0\0\0\x3c\0\x12\x04test\x07example\x03com\0\xc0\x65\0\x01\0\x01\0\0\0\x3c\0\x04\xc6\x33\x64\x07\0\0\x29\x04\xd0\0\0\0\0\0\0",
        b"a0.example.com",
        &[(Addr::V4(0xC633_6407), 30)],
    ),
];

/// The name doesn't exist.
const NO_NAME: &[u8] =
    b"\x73\x0d\x81\x83\0\x01\0\0\0\0\0\x01\x04none\x07example\x03com\0\0\x01\0\x01\0\0\x29\x04\xd0\0\0\0\0\0\0";

/// test.example.com has the alias a.example.com, for 30 seconds, and that one 198.51.100.9, for 60: the
/// address is told for the lesser of both.
const ALIAS: Told = (
    b"\0\x01\x81\x80\0\x01\0\x02\0\0\0\0\x04test\x07example\x03com\0\0\x01\0\x01\xc0\x0c\0\x05\0\x01\0\0\0\x1e\0\x04\x01a\xc0\x11\xc0\x2e\0\x01\0\x01\0\0\0\x3c\0\x04\xc6\x33\x64\x09",
    b"test.example.com",
    &[(Addr::V4(0xC633_6409), 30)],
);

/// The name of what is answered is a pointer to itself, at the offset 34.
const LOOP: &[u8] =
    b"\0\x01\x81\x80\0\x01\0\x01\0\0\0\0\x04test\x07example\x03com\0\0\x01\0\x01\xc0\x22\0\x01\0\x01\0\0\0\x3c\0\x04\xc6\x33\x64\x08";

/// Whether this is read in the message.
fn is_read(alloc: Global, told: &Told) -> bool {
    let (message, name, rows) = *told;
    matches!(
        read_answers(alloc, message),
        Ok(answers) if answers.name.octets() == name && answers.rows.as_slice() == rows
    )
}

/// Whether the message is none of an answer.
fn is_refused(alloc: Global, message: &[u8]) -> bool {
    matches!(read_answers(alloc, message), Err(DnsFault::NotAnswer))
}

#[test]
fn what_dnsmasq_answers_is_read(rt: HostRuntime) {
    for told in &ANSWERS {
        assert!(rt; is_read(rt.alloc(), told));
    }
    assert!(rt; is_refused(rt.alloc(), NO_NAME));
}

#[test]
fn an_alias_and_a_pointer_to_itself_are_read(rt: HostRuntime) {
    assert!(rt; is_read(rt.alloc(), &ALIAS));
    assert!(rt; matches!(read_answers(rt.alloc(), LOOP), Err(DnsFault::Pointer(34))));
}
