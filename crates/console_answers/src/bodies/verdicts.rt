//! Verdicts.
ghost use Rattle.std.specs.Prelude.{◌≡◌, ◌++◌, codes, decimal};
ghost use Rattle.json.specs.Print.{escape};
ghost use Rattle.console_answers.specs.Kept.{kept};
ghost use Rattle.desk_model.specs.Texts.Verdicts as line;
ghost use Rattle.console_answers.specs.Bodies.Verdicts as spec;

use crate::AnswerBuffer;
use crate::texts::{put_escaped_decimal, put_escapes};
use acl_model::Ruling;
use desk_model::texts::{default_name, part_name, passing, why_name};
use frame_view::Part;
use packet_judge::Verdict;

/// Adds a word and the number of an entry inside a JSON string, as far as they fit.
#[tactic(auto, using(crate::proofs::KeptLemmas::kept_escaped))]
fn put_numbered(buffer: &mut AnswerBuffer, word: &[u8], number: u16)
    ensures { buffer.new ≡ kept (buffer.old ++ escape (word.now ++ decimal number)) }
{
    put_escapes(buffer, word);
    put_escaped_decimal(buffer, u64::from(number));
}

/// Adds a ruling inside a JSON string, as far as it fits.
#[tactic(auto, unfolding(desk_model::specs::Texts::Verdicts::ruling_text))]
pub(crate) fn put_ruling(buffer: &mut AnswerBuffer, ruling: Ruling)
    ensures { buffer.new ≡ kept (buffer.old ++ escape (line.ruling_text ruling)) }
{
    match ruling {
        Ruling::Accept(number) => put_numbered(buffer, b"accept:", number),
        Ruling::AcceptDefault(rule) => put_escapes(buffer, default_name(rule).as_bytes()),
        Ruling::Drop(number) => put_numbered(buffer, b"drop:", number),
        Ruling::DropDefault(why) => put_escapes(buffer, why_name(why).as_bytes()),
        Ruling::DropHeld => put_escapes(buffer, b"drop:held"),
    }
}

/// Adds the ruling of an endpoint behind its name inside a JSON string, where it is a Thing, as far
/// as it fits.
#[tactic(auto, unfolding(desk_model::specs::Texts::Verdicts::endpoint_text), using(crate::proofs::KeptLemmas::kept_escaped, crate::proofs::KeptLemmas::kept_none))]
fn put_endpoint(buffer: &mut AnswerBuffer, name: &[u8], ruling: Option<Ruling>)
    ensures { buffer.new ≡ kept (buffer.old ++ escape (line.endpoint_text name.now ruling)) }
{
    match ruling {
        None => {
            let _len = buffer.len();
        }
        Some(ruling) => {
            put_escapes(buffer, name);
            put_ruling(buffer, ruling);
        }
    }
}

/// Adds the rulings of both endpoints inside a JSON string, as far as they fit.
#[tactic(auto, using(crate::proofs::KeptLemmas::kept_escaped))]
fn put_endpoints(buffer: &mut AnswerBuffer, source: Option<Ruling>, destination: Option<Ruling>)
    ensures { buffer.new ≡ kept (buffer.old ++ escape (line.endpoint_text (codes " from=") source ++ line.endpoint_text (codes " to=") destination)) }
{
    put_endpoint(buffer, b" from=", source);
    put_endpoint(buffer, b" to=", destination);
}

/// Adds the name of a part inside a JSON string, as far as it fits.
fn put_part(buffer: &mut AnswerBuffer, part: Part)
    ensures { buffer.new ≡ kept (buffer.old ++ escape (line.part_name part)) }
{
    put_escapes(buffer, part_name(part).as_bytes());
}

/// Adds the part that can't be read inside a JSON string, as far as it fits.
#[tactic(auto, unfolding(desk_model::specs::Texts::Verdicts::unreadable_text), using(crate::proofs::KeptLemmas::kept_escaped))]
fn put_unreadable(buffer: &mut AnswerBuffer, part: Part)
    ensures { buffer.new ≡ kept (buffer.old ++ escape (line.unreadable_text part)) }
{
    put_escapes(buffer, b" unreadable ");
    put_part(buffer, part);
}

/// Adds the rulings or what stands in place of them inside a JSON string, as far as it fits.
#[tactic(auto, unfolding(desk_model::specs::Texts::Verdicts::reason_text))]
fn put_reason(buffer: &mut AnswerBuffer, verdict: &Verdict)
    ensures { buffer.new ≡ kept (buffer.old ++ escape (line.reason_text verdict.now)) }
{
    match verdict {
        Verdict::Unmanaged => put_escapes(buffer, b" unmanaged"),
        Verdict::Link => put_escapes(buffer, b" link"),
        Verdict::Unreadable(part) => put_unreadable(buffer, *part),
        Verdict::Governed(source, destination) => put_endpoints(buffer, *source, *destination),
    }
}

/// Adds a verdict inside a JSON string, as far as it fits.
#[tactic(auto, unfolding(desk_model::specs::Texts::Verdicts::verdict_text), using(crate::proofs::KeptLemmas::kept_escaped))]
fn put_verdict_text(buffer: &mut AnswerBuffer, verdict: &Verdict)
    ensures { buffer.new ≡ kept (buffer.old ++ escape (line.verdict_text verdict.now)) }
{
    put_escapes(buffer, passing(verdict).as_bytes());
    put_reason(buffer, verdict);
}

/// Adds a verdict, as far as it fits.
#[tactic(auto, unfolding(crate::specs::Bodies::Verdicts::verdict_body), using(crate::proofs::BodiesLaws::Joins::joined_verdict))]
fn put_verdict(buffer: &mut AnswerBuffer, verdict: &Verdict)
    ensures { buffer.new ≡ kept (buffer.old ++ spec.verdict_body verdict.now) }
{
    buffer.put(b"{\"verdict\":\"");
    put_verdict_text(buffer, verdict);
    buffer.put(b"\"}");
}

/// The number of an entry has 16 bits.
fn ruling_fits(ruling: Option<Ruling>)
    ensures { spec.RulingFits ruling }
{
    match ruling {
        Some(Ruling::Accept(number)) => {
            let _number = number;
        }
        Some(Ruling::Drop(number)) => {
            let _number = number;
        }
        Some(Ruling::AcceptDefault(_)) => (),
        Some(Ruling::DropDefault(_)) => (),
        Some(Ruling::DropHeld) => (),
        None => (),
    }
}

/// The numbers of a verdict's entries have 16 bits.
fn verdict_fits(verdict: &Verdict)
    ensures { spec.VerdictFits verdict.now }
{
    match verdict {
        Verdict::Unmanaged => (),
        Verdict::Link => (),
        Verdict::Unreadable(_) => (),
        Verdict::Governed(source, destination) => {
            ruling_fits(*source);
            ruling_fits(*destination);
        }
    }
}

/// Writes the body of the answer to a frame, in place of what stood in the buffer. It takes no
/// memory.
#[tactic(auto, using(crate::proofs::BodiesLaws::VerdictLengths::verdict_kept))]
pub fn write_verdict(buffer: &mut AnswerBuffer, verdict: &Verdict)
    ensures { buffer.new ≡ spec.verdict_body verdict.now }
{
    verdict_fits(verdict);
    buffer.clear();
    put_verdict(buffer, verdict);
}
