//! Numbers, in decimal digits without a leading zero.
ghost use Rattle.std.specs.Prelude.{◌≡◌, ◌++◌, OnErr, OnOk, decimal};
ghost use Rattle.std.specs.Fmt.{signed_decimal};
ghost use Rattle.text_values.specs.Added.{AddedPart};
ghost use Rattle.text_values.specs.Numbers.{expiry_text, number_text, offset_text, two_text};

use itoa::{Buffer, write_digits};
use mud_base::{Bytes, End, Memory};

/// Adds the decimal digits of a number. Without memory the line stays as it was.
#[tactic(auto, using(std::proofs::lemmas::Fmt::decimal_digit))]
pub fn append_decimal(line: &mut Bytes, number: u64) -> Result<(), Memory>
    ensures ok { OnOk result (line.new ≡ line.old ++ decimal number) }
    ensures err { OnErr result (line.new ≡ line.old) }
{
    // Most numbers of entries are one digit, which needs no buffer.
    if number < 10 {
        return line.push(b'0' + number as u8);
    }
    let mut digits = Buffer::new();
    line.append(digits.format(number).as_bytes())
}

/// How many octets two numbers take at most, each with a space behind it.
const MOST_OF_TWO: usize = 22;

/// Adds two numbers with a space behind each. They are written into one buffer, the second one
/// first, and added at once. Without memory the line stays as it was.
pub fn append_two(line: &mut Bytes, first: u32, second: u32) -> Result<(), Memory>
    ensures ok { OnOk result (line.new ≡ line.old ++ two_text first second) }
    ensures err { OnErr result (line.new ≡ line.old) }
{
    let mut text = [b' '; MOST_OF_TWO];
    let behind = write_digits(u64::from(second), &mut text, MOST_OF_TWO - 1);
    let start = write_digits(u64::from(first), &mut text, behind - 1);
    line.append(&text[start..])
}

/// Adds the decimal digits of a number, behind `-` where it is below 0. Without memory the line
/// stays as it was.
pub fn append_signed(line: &mut Bytes, number: i64) -> Result<(), Memory>
    ensures ok { OnOk result (line.new ≡ line.old ++ signed_decimal number) }
    ensures err { OnErr result (line.new ≡ line.old) }
{
    let mut digits = Buffer::new();
    line.append(digits.format(number).as_bytes())
}

/// Adds an expiry: `never`, or its seconds. Without memory the line stays as it was.
#[tactic(auto, unfolding(crate::specs::Numbers::expiry_text))]
pub fn append_expiry(line: &mut Bytes, expiry: End) -> Result<(), Memory>
    ensures ok { OnOk result (line.new ≡ line.old ++ expiry_text expiry) }
    ensures err { OnErr result (line.new ≡ line.old) }
{
    if expiry.0 == End::NEVER {
        return line.append(b"never");
    }
    append_decimal(line, expiry.0)
}

/// Adds a space and the number.
#[tactic(auto, unfolding(crate::specs::Numbers::number_text))]
pub fn append_number(line: &mut Bytes, number: u64) -> Result<(), Memory>
    ensures ok { OnOk result (line.new ≡ line.old ++ number_text number) }
    ensures part { OnErr result (AddedPart (number_text number) line.old line.new) }
{
    line.append(b" ")?;
    append_decimal(line, number)
}

/// Adds a space and the offset, where there is one.
#[tactic(auto, unfolding(crate::specs::Numbers::offset_text))]
pub fn append_offset(line: &mut Bytes, offset: Option<u64>) -> Result<(), Memory>
    ensures ok { OnOk result (line.new ≡ line.old ++ offset_text offset) }
    ensures part { OnErr result (AddedPart (offset_text offset) line.old line.new) }
{
    match offset {
        None => Ok(()),
        Some(offset) => append_number(line, offset),
    }
}
