//! Members of JSON objects.
ghost use Rattle.std.specs.Prelude.{◌≡◌, ◌++◌, OnOk, IfOk, codes, if◌then◌else◌, []};
ghost use Rattle.rule_export.specs.Objects as spec;
ghost use Rattle.rule_export.specs.Tests.{number_value};

use mud_base::{Bytes, Memory};
use text_values::append_decimal;

/// Adds the text in quotes.
#[tactic(auto, unfolding(crate::specs::Objects::quoted))]
pub(crate) fn append_quoted(line: &mut Bytes, text: &[u8]) -> Result<(), Memory>
    ensures { OnOk result (line.new ≡ line.old ++ spec.quoted text.now) }
{
    line.append(b"\"")?;
    line.append(text)?;
    line.append(b"\"")
}

/// Adds a name and a colon, behind a comma unless the member is the first.
#[tactic(auto)]
pub(crate) fn append_name(line: &mut Bytes, first: bool, name: &[u8]) -> Result<(), Memory>
    ensures { OnOk result (line.new ≡ line.old ++ ((if first then [] else codes ",") ++ spec.quoted name.now ++ codes ":")) }
{
    if !first {
        line.append(b",")?;
    }
    append_quoted(line, name)?;
    line.append(b":")
}

/// Adds the member of a number of 16 bits, where there is one. The answer says whether the next
/// member is the first.
#[tactic(auto, unfolding(crate::specs::Objects::member_text, crate::specs::Objects::next_first, crate::specs::Tests::number_value))]
pub(crate) fn append_number(
    line: &mut Bytes,
    first: bool,
    name: &[u8],
    number: Option<u16>,
) -> Result<bool, Memory>
    ensures text { OnOk result (line.new ≡ line.old ++ spec.member_text first (name.now, number_value number)) }
    ensures next { IfOk result (λ next. next ≡ spec.next_first first (name.now, number_value number)) }
{
    let Some(number) = number else {
        return Ok(first);
    };
    append_name(line, first, name)?;
    append_decimal(line, u64::from(number))?;
    Ok(false)
}

/// Adds the member of an octet's number, where there is one. The answer says whether the next member
/// is the first.
#[tactic(auto, unfolding(crate::specs::Objects::member_text, crate::specs::Objects::next_first, crate::specs::Tests::number_value))]
pub(crate) fn append_octet(
    line: &mut Bytes,
    first: bool,
    name: &[u8],
    number: Option<u8>,
) -> Result<bool, Memory>
    ensures text { OnOk result (line.new ≡ line.old ++ spec.member_text first (name.now, number_value number)) }
    ensures next { IfOk result (λ next. next ≡ spec.next_first first (name.now, number_value number)) }
{
    let Some(number) = number else {
        return Ok(first);
    };
    append_name(line, first, name)?;
    append_decimal(line, u64::from(number))?;
    Ok(false)
}
