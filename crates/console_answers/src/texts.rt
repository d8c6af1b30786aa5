//! Texts that are put into a buffer.
ghost use Rattle.std.specs.Prelude.{◌≡◌, ◌<◌, ◌++◌, decimal};
ghost use Rattle.std.specs.Char.{digit_char};
ghost use Rattle.json.specs.Print as spec;
ghost use Rattle.json.specs.Print.{escape_byte, escape, quoted};
ghost use Rattle.console_answers.specs.Kept.{kept};

use crate::buffer::AnswerBuffer;
use crate::plain::is_plain;
use itoa::Buffer;

/// Adds the decimal digits of a number, as far as they fit.
pub fn put_decimal(buffer: &mut AnswerBuffer, number: u64)
    ensures { buffer.new ≡ kept (buffer.old ++ decimal number) }
{
    let mut digits = Buffer::new();
    buffer.put(digits.format(number).as_bytes());
}

/// The lower-case hex digit of a number below 16.
pub fn hex_digit(digit: u8) -> u8
    requires { digit < 16 }
    ensures { result ≡ digit_char digit }
{
    if digit < 10 {
        b'0' + digit
    } else {
        b'a' + (digit - 10)
    }
}

/// The letter of an octet's short escape (RFC 8259, 7), or 0 where it has none.
pub(crate) fn escape_letter(octet: u8) -> u8
    ensures { result ≡ spec.escape_letter octet }
{
    if octet == b'"' || octet == b'\\' {
        return octet;
    }
    if octet == 8 {
        return b'b';
    }
    if octet == 12 {
        return b'f';
    }
    if octet == b'\n' {
        return b'n';
    }
    if octet == b'\r' {
        return b'r';
    }
    if octet == b'\t' {
        return b't';
    }
    0
}

/// Adds an octet of a JSON string (RFC 8259, 7), as far as it fits.
#[tactic(auto, unfolding(json::specs::Print::escape_byte))]
fn put_escaped(buffer: &mut AnswerBuffer, octet: u8)
    ensures { buffer.new ≡ kept (buffer.old ++ escape_byte octet) }
{
    let letter = escape_letter(octet);
    if letter > 0 {
        buffer.put(&[b'\\', letter]);
        return;
    }
    if octet < 32 {
        buffer.put(&[
            b'\\',
            b'u',
            b'0',
            b'0',
            hex_digit(octet / 16),
            hex_digit(octet % 16),
        ]);
        return;
    }
    buffer.push(octet);
}

/// Adds the octets of a JSON string without its quotes, as far as they fit.
#[tactic(auto, using(crate::proofs::KeptLemmas::kept_next_by, crate::proofs::KeptLemmas::kept_none))]
pub fn put_escapes(buffer: &mut AnswerBuffer, text: &[u8])
    ensures { buffer.new ≡ kept (buffer.old ++ escape text.now) }
{
    if is_plain(text) {
        buffer.put(text);
        return;
    }
    let _len = buffer.len();
    'text: for octet in text {
        put_escaped(buffer, *octet);
    }
}

/// Adds a JSON string (RFC 8259, 7), as far as it fits: in quotes, and with a short escape where an
/// octet has one. Octets below 32 have no other form than an escape.
#[tactic(auto, using(crate::proofs::KeptLemmas::kept_quoted))]
pub fn put_quoted(buffer: &mut AnswerBuffer, text: &[u8])
    ensures { buffer.new ≡ kept (buffer.old ++ quoted text.now) }
{
    buffer.push(b'"');
    put_escapes(buffer, text);
    buffer.push(b'"');
}

/// Adds the decimal digits of a number inside a JSON string, as far as they fit.
pub fn put_escaped_decimal(buffer: &mut AnswerBuffer, number: u64)
    ensures { buffer.new ≡ kept (buffer.old ++ escape (decimal number)) }
{
    let mut digits = Buffer::new();
    put_escapes(buffer, digits.format(number).as_bytes());
}
