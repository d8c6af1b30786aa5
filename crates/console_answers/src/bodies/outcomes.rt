//! What a command did, and rules alone.
ghost use Rattle.std.specs.Prelude.{◌≡◌, ◌≤◌, ◌++◌, length};
ghost use Rattle.console_answers.specs.Kept.{kept};
ghost use Rattle.console_answers.specs.Bodies.Outcomes as spec;

use crate::AnswerBuffer;
use crate::bodies::puts::{put_until, put_url, put_word};
use crate::texts::put_quoted;
use console_routes::Statement;
use desk_model::Outcome;
use item_codec::Word;
use mud_base::End;
use mud_url::MudUrl;

/// Adds a rule, as far as it fits.
#[tactic(auto, unfolding(crate::specs::Bodies::Outcomes::rule_body), using(crate::proofs::KeptLemmas::kept_behind))]
fn put_rule(buffer: &mut AnswerBuffer, rule: &[u8])
    ensures { buffer.new ≡ kept (buffer.old ++ spec.rule_body rule.now) }
{
    buffer.put(b"{\"rule\":");
    put_quoted(buffer, rule);
    buffer.put(b"}");
}

/// Writes the body that names a rule alone, of at most 100 octets, in place of what stood in the
/// buffer.
#[tactic(auto, using(crate::proofs::BodiesLaws::Lengths::rule_kept))]
pub fn write_rule(buffer: &mut AnswerBuffer, rule: &[u8])
    requires { length rule.now ≤ 100 }
    ensures { buffer.new ≡ spec.rule_body rule.now }
{
    buffer.clear();
    put_rule(buffer, rule);
}

/// Adds what a command did, as far as it fits.
#[tactic(auto, unfolding(crate::specs::Bodies::Outcomes::result_body), using(crate::proofs::KeptLemmas::kept_behind))]
fn put_result(buffer: &mut AnswerBuffer, word: Word)
    ensures { buffer.new ≡ kept (buffer.old ++ spec.result_body word) }
{
    buffer.put(b"{\"result\":");
    put_word(buffer, word);
    buffer.put(b"}");
}

/// Adds what a command did, with the expiry that is kept, as far as it fits.
#[tactic(auto, unfolding(crate::specs::Bodies::Outcomes::until_body), using(crate::proofs::KeptLemmas::kept_behind))]
fn put_result_until(buffer: &mut AnswerBuffer, word: Word, until: Option<End>)
    ensures { buffer.new ≡ kept (buffer.old ++ spec.until_body word until) }
{
    buffer.put(b"{\"result\":");
    put_word(buffer, word);
    buffer.put(b",\"until\":");
    put_until(buffer, until);
    buffer.put(b"}");
}

/// Adds what a command did, with the URL that it is about, as far as it fits.
#[tactic(auto, unfolding(crate::specs::Bodies::Outcomes::url_body), using(crate::proofs::KeptLemmas::kept_behind))]
fn put_result_url(buffer: &mut AnswerBuffer, word: Word, url: &Option<MudUrl>)
    ensures { buffer.new ≡ kept (buffer.old ++ spec.url_body word url.now) }
{
    buffer.put(b"{\"result\":");
    put_word(buffer, word);
    buffer.put(b",\"url\":");
    put_url(buffer, url);
    buffer.put(b"}");
}

/// Adds what a statement did, as far as it fits.
#[tactic(auto, unfolding(crate::specs::Bodies::Outcomes::stated_body))]
fn put_stated(buffer: &mut AnswerBuffer, statement: Statement, outcome: &Outcome)
    ensures { buffer.new ≡ kept (buffer.old ++ spec.stated_body statement outcome.now) }
{
    match statement {
        Statement::Lease | Statement::Observe => {
            put_result_until(buffer, outcome.word, outcome.until);
        }
        Statement::Move
        | Statement::Remove
        | Statement::Hold
        | Statement::Release
        | Statement::EndLease
        | Statement::Verdict
        | Statement::Revoke
        | Statement::Bind
        | Statement::Unbind
        | Statement::Locals => put_result(buffer, outcome.word),
    }
}

/// Writes the body of the answer to a statement that was carried out, in place of what stood in the
/// buffer.
#[tactic(auto, using(crate::proofs::BodiesLaws::Lengths::stated_kept))]
pub fn write_stated(buffer: &mut AnswerBuffer, statement: Statement, outcome: &Outcome)
    ensures { buffer.new ≡ spec.stated_body statement outcome.now }
{
    expiry_fits(outcome.until);
    buffer.clear();
    put_stated(buffer, statement, outcome);
}

/// An expiry fits its 64 bits.
pub(crate) fn expiry_fits(until: Option<End>)
    ensures { spec.EndFits until }
{
    if let Some(End(seconds)) = until {
        let _seconds = seconds;
    }
}

/// A URL has at most 256 octets.
fn url_fits(url: &Option<MudUrl>)
    ensures { spec.UrlFits url.now }
{
    if let Some(url) = url {
        let _text = url.text();
    }
}

/// Writes the body of the answer to a usage file that was taken, in place of what stood in the
/// buffer.
#[tactic(auto, using(crate::proofs::BodiesLaws::Lengths::url_kept))]
pub fn write_file(buffer: &mut AnswerBuffer, outcome: &Outcome)
    ensures { buffer.new ≡ spec.url_body outcome.now.word outcome.now.url }
{
    url_fits(&outcome.url);
    buffer.clear();
    put_result_url(buffer, outcome.word, &outcome.url);
}
