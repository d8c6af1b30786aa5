//! The texts of rulings and verdicts.
ghost use Rattle.std.specs.Prelude.{◌≡◌, ◌++◌, OnOk, decimal};
ghost use Rattle.desk_model.specs.Texts.Verdicts as spec;

use crate::texts::verdict_words::{default_name, part_name, passing, why_name};
use acl_model::Ruling;
use frame_view::Part;
use mud_base::{Bytes, Memory};
use packet_judge::Verdict;
use text_values::append_decimal;

/// Adds `unreadable` and the part that can't be read, each behind a space.
#[tactic(auto, unfolding(crate::specs::Texts::Verdicts::unreadable_text))]
pub fn append_unreadable(line: &mut Bytes, part: Part) -> Result<(), Memory>
    ensures { OnOk result (line.new ≡ line.old ++ spec.unreadable_text part) }
{
    line.append(b" unreadable ")?;
    line.append(part_name(part).as_bytes())
}

/// Adds a ruling: `accept:` or `drop:` and the number of the entry, `default-dns` or `default-ntp`,
/// or `drop:` and why no entry decided.
#[tactic(auto, unfolding(crate::specs::Texts::Verdicts::ruling_text))]
pub fn append_ruling(line: &mut Bytes, ruling: Ruling) -> Result<(), Memory>
    ensures { OnOk result (line.new ≡ line.old ++ spec.ruling_text ruling) }
{
    match ruling {
        Ruling::Accept(number) => {
            line.append(b"accept:")?;
            append_decimal(line, u64::from(number))
        }
        Ruling::AcceptDefault(rule) => line.append(default_name(rule).as_bytes()),
        Ruling::Drop(number) => {
            line.append(b"drop:")?;
            append_decimal(line, u64::from(number))
        }
        Ruling::DropDefault(why) => line.append(why_name(why).as_bytes()),
        Ruling::DropHeld => line.append(b"drop:held"),
    }
}

/// Adds the ruling of an endpoint behind its name, where it is a Thing.
#[tactic(auto, unfolding(crate::specs::Texts::Verdicts::endpoint_text))]
fn append_endpoint(line: &mut Bytes, name: &[u8], ruling: Option<Ruling>) -> Result<(), Memory>
    ensures { OnOk result (line.new ≡ line.old ++ spec.endpoint_text name.now ruling) }
{
    match ruling {
        None => Ok(()),
        Some(ruling) => {
            line.append(name)?;
            append_ruling(line, ruling)
        }
    }
}

/// Adds the rulings, or what stands in place of them.
#[tactic(auto, unfolding(crate::specs::Texts::Verdicts::reason_text))]
fn append_reason(line: &mut Bytes, verdict: &Verdict) -> Result<(), Memory>
    ensures { OnOk result (line.new ≡ line.old ++ spec.reason_text verdict.now) }
{
    match verdict {
        Verdict::Unmanaged => line.append(b" unmanaged"),
        Verdict::Link => line.append(b" link"),
        Verdict::Unreadable(part) => append_unreadable(line, *part),
        Verdict::Governed(source, destination) => {
            append_endpoint(line, b" from=", *source)?;
            append_endpoint(line, b" to=", *destination)
        }
    }
}

/// Adds `pass` or `drop`, and the rulings or what stands in place of them.
#[tactic(auto, unfolding(crate::specs::Texts::Verdicts::verdict_text))]
#[inline(never)]
fn append_words(line: &mut Bytes, verdict: &Verdict) -> Result<(), Memory>
    ensures { OnOk result (line.new ≡ line.old ++ spec.verdict_text verdict.now) }
{
    line.append(passing(verdict).as_bytes())?;
    append_reason(line, verdict)
}

/// Adds the verdict on a packet that passes since an entry of this number accepts it at its one
/// endpoint that is a Thing: these words, and the number.
fn append_accepted(line: &mut Bytes, words: &[u8], number: u16) -> Result<(), Memory>
    ensures { OnOk result (line.new ≡ line.old ++ (words.now ++ decimal number)) }
{
    line.append(words)?;
    append_decimal(line, u64::from(number))
}

/// Adds a verdict: `pass` or `drop`, and the ruling of each endpoint that is a Thing, or why none
/// is ruled on.
#[tactic(auto, unfolding(crate::specs::Texts::Verdicts::verdict_text, crate::specs::Texts::Verdicts::reason_text, crate::specs::Texts::Verdicts::endpoint_text, crate::specs::Texts::Verdicts::ruling_text, packet_judge::specs::Verdicts::forwarded, packet_judge::specs::Verdicts::accepts))]
#[inline(always)]
pub fn append_verdict(line: &mut Bytes, verdict: &Verdict) -> Result<(), Memory>
    ensures { OnOk result (line.new ≡ line.old ++ spec.verdict_text verdict.now) }
{
    match verdict {
        // Most packets are between a Thing and a peer that is none, so their words are added at once.
        Verdict::Governed(Some(Ruling::Accept(number)), None) => {
            append_accepted(line, b"pass from=accept:", *number)
        }
        Verdict::Governed(None, Some(Ruling::Accept(number))) => {
            append_accepted(line, b"pass to=accept:", *number)
        }
        _ => append_words(line, verdict),
    }
}
