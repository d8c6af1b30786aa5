//! The text of an octet of flags of TCP.
ghost use Rattle.std.specs.Prelude.{◌≡◌, ◌≤◌, ◌++◌, ◌&&◌, true, not, OnOk, IfOk, codes, if◌then◌else◌, []};
ghost use Rattle.rule_export.specs.Flags as spec;
ghost use Rattle.acl_model.specs.TcpFlags.{word_of};

use acl_model::TcpFlag;
use acl_model::tcp_flag::{all_flags, bit_of, word_of};
use mud_base::{Bytes, Memory};

/// Whether a flag is set in the octet.
#[tactic(auto, unfolding(crate::specs::Flags::is_set))]
fn is_set(octet: u8, flag: TcpFlag) -> bool
    ensures { result ≡ spec.is_set octet flag }
{
    octet / bit_of(flag) % 2 == 1
}

/// Adds the word of a flag, where it is set, behind a space unless it is the first. The answer says
/// whether the next word is the first.
#[tactic(auto)]
fn append_flag(line: &mut Bytes, first: bool, octet: u8, flag: TcpFlag) -> Result<bool, Memory>
    ensures text { OnOk result (line.new ≡ line.old ++ (if spec.is_set octet flag then (if first then word_of flag else codes " " ++ word_of flag) else [])) }
    ensures next { IfOk result (λ next. next ≡ (first && not (spec.is_set octet flag))) }
{
    if !is_set(octet, flag) {
        return Ok(first);
    }
    if !first {
        line.append(b" ")?;
    }
    line.append(word_of(flag).as_bytes())?;
    Ok(false)
}

/// Adds the words of the flags that are set.
#[tactic(auto, unfolding(crate::specs::Flags::words_text))]
fn append_words(line: &mut Bytes, octet: u8, flags: &[TcpFlag]) -> Result<(), Memory>
    ensures { OnOk result (line.new ≡ line.old ++ spec.words_text true octet flags.now) }
{
    let mut first = true;
    'flags: for flag in flags {
        first = append_flag(line, first, octet, *flag)?;
    }
    Ok(())
}

/// Adds the words of the flags that an octet sets, from the highest bit to the lowest, with a space
/// between them, in quotes (RFC 8519, 4.2, `flags`).
#[tactic(auto, unfolding(crate::specs::Flags::flags_text, crate::specs::Objects::quoted))]
pub(crate) fn append_flags(line: &mut Bytes, octet: u8) -> Result<(), Memory>
    ensures { OnOk result (line.new ≡ line.old ++ spec.flags_text octet) }
{
    line.append(b"\"")?;
    append_words(line, octet, &all_flags())?;
    line.append(b"\"")
}
