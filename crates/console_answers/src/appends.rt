//! JSON strings that are added behind what stands in an octet string.
ghost use Rattle.std.specs.Prelude.{◌≡◌, ◌++◌, OnOk};
ghost use Rattle.json.specs.Print.{escape, escape_byte, quoted};

use crate::plain::is_plain;
use crate::texts::{escape_letter, hex_digit};
use mud_base::{Bytes, Memory};

/// Adds an octet of a JSON string (RFC 8259, 7).
#[tactic(auto, unfolding(json::specs::Print::escape_byte))]
fn append_escaped(body: &mut Bytes, octet: u8) -> Result<(), Memory>
    ensures { OnOk result (body.new ≡ body.old ++ escape_byte octet) }
{
    let letter = escape_letter(octet);
    if letter > 0 {
        return body.append(&[b'\\', letter]);
    }
    if octet < 32 {
        return body.append(&[
            b'\\',
            b'u',
            b'0',
            b'0',
            hex_digit(octet / 16),
            hex_digit(octet % 16),
        ]);
    }
    body.push(octet)
}

/// Adds the octets of a JSON string without its quotes.
fn append_escapes(body: &mut Bytes, text: &[u8]) -> Result<(), Memory>
    ensures { OnOk result (body.new ≡ body.old ++ escape text.now) }
{
    if is_plain(text) {
        return body.append(text);
    }
    'text: for octet in text {
        append_escaped(body, *octet)?;
    }
    Ok(())
}

/// Adds a JSON string (RFC 8259, 7): in quotes, and with a short escape where an octet has one.
#[tactic(auto, using(crate::proofs::Quotes::in_quotes))]
pub fn append_quoted(body: &mut Bytes, text: &[u8]) -> Result<(), Memory>
    ensures { OnOk result (body.new ≡ body.old ++ quoted text.now) }
{
    body.push(b'"')?;
    append_escapes(body, text)?;
    body.push(b'"')
}
