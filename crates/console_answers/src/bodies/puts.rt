//! Parts of bodies, put into a buffer as far as they fit.
ghost use Rattle.std.specs.Prelude.{◌≡◌, ◌++◌, option_map};
ghost use Rattle.json.specs.Print.{quoted};
ghost use Rattle.item_codec.specs.Word.{text_of};
ghost use Rattle.console_answers.specs.Kept.{kept};
ghost use Rattle.console_answers.specs.Texts.{url_text};
ghost use Rattle.console_answers.specs.Bodies.Outcomes as spec;

use crate::AnswerBuffer;
use crate::texts::{put_decimal, put_quoted};
use item_codec::Word;
use mud_base::End;
use mud_url::MudUrl;

/// Adds the word for what a command did.
pub(crate) fn put_word(buffer: &mut AnswerBuffer, word: Word)
    ensures { buffer.new ≡ kept (buffer.old ++ quoted (text_of word)) }
{
    put_quoted(buffer, word.text().as_bytes());
}

/// Adds an expiry: its seconds, or null for what never expires and where there is none.
#[tactic(auto, unfolding(crate::specs::Bodies::Outcomes::until_text))]
pub(crate) fn put_until(buffer: &mut AnswerBuffer, until: Option<End>)
    ensures { buffer.new ≡ kept (buffer.old ++ spec.until_text until) }
{
    match until {
        None => buffer.put(b"null"),
        Some(until) if until.0 == End::NEVER => buffer.put(b"null"),
        Some(until) => put_decimal(buffer, until.0),
    }
}

/// Adds a URL, or null where there is none.
#[tactic(auto, unfolding(crate::specs::Texts::url_text))]
pub(crate) fn put_url(buffer: &mut AnswerBuffer, url: &Option<MudUrl>)
    ensures { buffer.new ≡ kept (buffer.old ++ url_text url.now) }
{
    match url {
        None => buffer.put(b"null"),
        Some(url) => put_quoted(buffer, url.text()),
    }
}
