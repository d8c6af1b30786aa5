//! What was heard of a Thing.
ghost use Rattle.std.specs.Prelude.{◌≡◌, ◌≤◌, ◌++◌, length, IfOk};
ghost use Rattle.json.specs.Print.{quoted};
ghost use Rattle.console_answers.specs.Kept.{kept};
ghost use Rattle.console_answers.specs.Bodies.Heards as spec;

use crate::AnswerBuffer;
use crate::bodies::outcomes::expiry_fits;
use crate::bodies::puts::{put_until, put_word};
use crate::texts::put_quoted;
use desk_model::Outcome;
use dhcp_lldp::Heard;
use mud_base::{Bytes, Mac, Memory, addr_text, mac_text};
use std::alloc::Global;

/// The texts of the addresses that were heard. They are made before what was heard is taken, so that
/// the answer takes no memory.
#[derive(Drop)]
pub struct HeardTexts {
    /// The hardware address; empty where nothing is said.
    pub mac: Bytes,
    /// The address of a lease, and else empty.
    pub address: Bytes,
}

/// The texts of the addresses in what was heard.
#[tactic(auto, unfolding(crate::specs::Bodies::Heards::texts_of))]
pub fn heard_texts(alloc: Global, heard: &Heard) -> Result<HeardTexts, Memory>
    ensures { IfOk result (λ texts. texts ≡ spec.texts_of heard.now) }
{
    match heard {
        Heard::Url(mac, _) => Ok(HeardTexts {
            mac: mac_text(alloc, *mac)?,
            address: Bytes::empty(alloc),
        }),
        Heard::Lease(mac, address, _) => Ok(HeardTexts {
            mac: mac_text(alloc, *mac)?,
            address: addr_text(alloc, *address)?,
        }),
        Heard::Nothing => Ok(HeardTexts {
            mac: Bytes::empty(alloc),
            address: Bytes::empty(alloc),
        }),
    }
}

/// Adds what became of a URL that was heard, as far as it fits.
fn put_heard_url(buffer: &mut AnswerBuffer, mac: &[u8], url: &[u8], outcome: &Outcome)
    ensures { buffer.new ≡ kept (buffer.old ++ spec.heard_url_body mac.now url.now outcome.now) }
{
    buffer.put(b"{\"heard\":\"url\",\"mac\":");
    put_quoted(buffer, mac);
    buffer.put(b",\"result\":");
    put_word(buffer, outcome.word);
    buffer.put(b",\"url\":");
    put_quoted(buffer, url);
    buffer.put(b"}");
}

/// Adds what became of a lease that was heard, as far as it fits.
fn put_heard_lease(buffer: &mut AnswerBuffer, address: &[u8], mac: &[u8], outcome: &Outcome)
    ensures { buffer.new ≡ kept (buffer.old ++ spec.heard_lease_body address.now mac.now outcome.now) }
{
    buffer.put(b"{\"address\":");
    put_quoted(buffer, address);
    buffer.put(b",\"heard\":\"lease\",\"mac\":");
    put_quoted(buffer, mac);
    put_lease_end(buffer, outcome);
}

/// Adds the rest of what became of a lease, as far as it fits.
#[tactic(auto, unfolding(crate::specs::Bodies::Heards::lease_end), using(crate::proofs::KeptLemmas::kept_behind))]
fn put_lease_end(buffer: &mut AnswerBuffer, outcome: &Outcome)
    ensures { buffer.new ≡ kept (buffer.old ++ spec.lease_end outcome.now) }
{
    buffer.put(b",\"result\":");
    put_word(buffer, outcome.word);
    buffer.put(b",\"until\":");
    put_until(buffer, outcome.until);
    buffer.put(b"}");
}

/// Adds that nothing was heard, as far as it fits.
#[tactic(auto, unfolding(crate::specs::Bodies::Heards::nothing_body))]
fn put_nothing(buffer: &mut AnswerBuffer)
    ensures { buffer.new ≡ kept (buffer.old ++ spec.nothing_body) }
{
    buffer.put(b"{\"heard\":\"nothing\"}");
}

/// Writes the body of the answer to a message that says nothing, in place of what stood in the
/// buffer.
#[tactic(auto, using(crate::proofs::BodiesLaws::Lengths::nothing_kept))]
pub fn write_nothing_heard(buffer: &mut AnswerBuffer)
    ensures { buffer.new ≡ spec.nothing_body }
{
    buffer.clear();
    put_nothing(buffer);
}

/// Adds what became of what was heard, as far as it fits.
#[tactic(auto, unfolding(crate::specs::Bodies::Heards::heard_body, crate::specs::Bodies::Heards::texts_of))]
fn put_heard(buffer: &mut AnswerBuffer, heard: &Heard, texts: &HeardTexts, outcome: &Outcome)
    requires { texts.now ≡ spec.texts_of heard.now }
    ensures { buffer.new ≡ kept (buffer.old ++ spec.heard_body heard.now outcome.now) }
{
    match heard {
        Heard::Url(_, url) => put_heard_url(buffer, texts.mac.octets(), url.text(), outcome),
        Heard::Lease(..) => {
            put_heard_lease(buffer, texts.address.octets(), texts.mac.octets(), outcome);
        }
        Heard::Nothing => put_nothing(buffer),
    }
}

/// A hardware address has six octets.
fn mac_fits(mac: Mac)
    ensures { length mac.0 ≤ 6 }
{
    let _octets = mac.0;
}

/// A hardware address has six octets, and a URL at most 256.
fn heard_fits(heard: &Heard)
    ensures { spec.HeardFits heard.now }
{
    match heard {
        Heard::Url(mac, url) => {
            mac_fits(*mac);
            let _text = url.text();
        }
        Heard::Lease(mac, _, _) => mac_fits(*mac),
        Heard::Nothing => (),
    }
}

/// Writes the body of the answer to what was heard and taken, in place of what stood in the buffer.
#[tactic(auto, using(crate::proofs::BodiesLaws::HeardLengths::heard_kept))]
pub fn write_heard(buffer: &mut AnswerBuffer, heard: &Heard, texts: &HeardTexts, outcome: &Outcome)
    requires { texts.now ≡ spec.texts_of heard.now }
    ensures { buffer.new ≡ spec.heard_body heard.now outcome.now }
{
    heard_fits(heard);
    expiry_fits(outcome.until);
    buffer.clear();
    put_heard(buffer, heard, texts, outcome);
}
