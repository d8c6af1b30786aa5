//! What decides a frame.
ghost use Rattle.std.specs.Prelude.{◌≡◌, ◌++◌, OnOk, IfOk, option_map, codes, decimal};
ghost use Rattle.json.specs.Print.{quoted};
ghost use Rattle.desk_model.specs.Texts.Verdicts.{ruling_text, verdict_text};
ghost use Rattle.console_listings.specs.Why as spec;

use crate::addresses::append_mac;
use crate::things::append_url_end;
use acl_model::{Entry, Ruling};
use console_answers::append_quoted;
use desk_model::texts::{append_ruling, append_verdict};
use mud_base::{Bytes, Mac, Memory};
use mud_url::MudUrl;
use packet_judge::Verdict;
use std::alloc::Global;
use text_values::append_decimal;

/// The Thing at an endpoint of a frame, and what is decided on its packet.
#[derive(Clone, Copy)]
pub struct RuledEndpoint<'a> {
    /// Its hardware address.
    pub mac: Mac,
    /// Its URL, by whose file it is judged.
    pub url: &'a MudUrl,
    /// What is decided.
    pub ruling: Ruling,
    /// The entry that decides, where one of a usage file does.
    pub entry: Option<&'a Entry>,
}

/// The number of the entry that a ruling names.
#[tactic(auto, unfolding(crate::specs::Why::entry_number))]
fn entry_number(ruling: Ruling) -> Option<u16>
    ensures { result ≡ spec.entry_number ruling }
{
    match ruling {
        Ruling::Accept(number) => Some(number),
        Ruling::Drop(number) => Some(number),
        Ruling::AcceptDefault(_) => None,
        Ruling::DropDefault(_) => None,
        Ruling::DropHeld => None,
    }
}

/// Adds the names of an entry and of its list.
#[tactic(auto)]
fn append_names(body: &mut Bytes, entry: &Entry) -> Result<(), Memory>
    ensures { OnOk result (body.new ≡ body.old ++ (codes "{\"ace\":" ++ quoted entry.now.name ++ codes ",\"acl\":" ++ quoted entry.now.acl)) }
{
    body.append(b"{\"ace\":")?;
    append_quoted(body, entry.name.octets())?;
    body.append(b",\"acl\":")?;
    append_quoted(body, entry.acl.octets())
}

/// Adds the number of an entry.
#[tactic(auto)]
fn append_number(body: &mut Bytes, number: u16) -> Result<(), Memory>
    ensures { OnOk result (body.new ≡ body.old ++ (codes ",\"entry\":" ++ decimal number)) }
{
    body.append(b",\"entry\":")?;
    append_decimal(body, u64::from(number))
}

/// Adds the members of the entry that decides, or null for each.
#[tactic(auto, unfolding(crate::specs::Why::entry_text))]
fn append_entry(body: &mut Bytes, number: Option<u16>, entry: Option<&Entry>) -> Result<(), Memory>
    ensures { OnOk result (body.new ≡ body.old ++ spec.entry_text number (option_map (λ e. e.now) entry.entry)) }
{
    match (number, entry) {
        (Some(number), Some(entry)) => {
            append_names(body, entry)?;
            append_number(body, number)
        }
        (None, _) => body.append(b"{\"ace\":null,\"acl\":null,\"entry\":null"),
        (Some(_), None) => body.append(b"{\"ace\":null,\"acl\":null,\"entry\":null"),
    }
}

/// Adds what is decided.
#[tactic(auto, unfolding(crate::specs::Why::ruling_member))]
fn append_ruling_member(alloc: Global, body: &mut Bytes, ruling: Ruling) -> Result<(), Memory>
    ensures { OnOk result (body.new ≡ body.old ++ spec.ruling_member ruling) }
{
    let mut text = Bytes::empty(alloc);
    append_ruling(&mut text, ruling)?;
    body.append(b",\"ruling\":")?;
    append_quoted(body, text.octets())
}

/// Adds a Thing's hardware address.
#[tactic(auto, unfolding(crate::specs::Why::mac_member))]
fn append_mac_member(body: &mut Bytes, mac: Mac) -> Result<(), Memory>
    ensures { OnOk result (body.new ≡ body.old ++ spec.mac_member mac) }
{
    body.append(b",\"mac\":")?;
    append_mac(body, mac)
}

/// Adds what is decided at an endpoint.
#[tactic(auto, unfolding(crate::specs::Why::endpoint_text))]
fn append_endpoint(alloc: Global, body: &mut Bytes, ruled: &RuledEndpoint<'_>) -> Result<(), Memory>
    ensures { OnOk result (body.new ≡ body.old ++ spec.endpoint_text ruled.now) }
{
    append_entry(body, entry_number(ruled.ruling), ruled.entry)?;
    append_mac_member(body, ruled.mac)?;
    append_ruling_member(alloc, body, ruled.ruling)?;
    append_url_end(body, ruled.url)
}

/// Adds what is decided at an endpoint, or null where it is no Thing or nothing is decided.
#[tactic(auto, unfolding(crate::specs::Why::side_text))]
fn append_side(
    alloc: Global,
    body: &mut Bytes,
    ruled: &Option<RuledEndpoint<'_>>,
) -> Result<(), Memory>
    ensures { OnOk result (body.new ≡ body.old ++ spec.side_text ruled.now) }
{
    match ruled {
        None => body.append(b"null"),
        Some(ruled) => append_endpoint(alloc, body, ruled),
    }
}

/// Adds the text of a verdict.
#[tactic(auto)]
fn append_verdict_text(body: &mut Bytes, text: &[u8]) -> Result<(), Memory>
    ensures { OnOk result (body.new ≡ body.old ++ (codes ",\"verdict\":" ++ quoted text.now)) }
{
    body.append(b",\"verdict\":")?;
    append_quoted(body, text)
}

/// Adds the verdict.
#[tactic(auto)]
fn append_verdict_member(alloc: Global, body: &mut Bytes, verdict: &Verdict) -> Result<(), Memory>
    ensures { OnOk result (body.new ≡ body.old ++ (codes ",\"verdict\":" ++ quoted (verdict_text verdict.now))) }
{
    let mut text = Bytes::empty(alloc);
    append_verdict(&mut text, verdict)?;
    append_verdict_text(body, text.octets())
}

/// Adds the verdict, as the last member.
#[tactic(auto, unfolding(crate::specs::Why::verdict_end))]
fn append_verdict_end(alloc: Global, body: &mut Bytes, verdict: &Verdict) -> Result<(), Memory>
    ensures { OnOk result (body.new ≡ body.old ++ spec.verdict_end verdict.now) }
{
    append_verdict_member(alloc, body, verdict)?;
    body.append(b"}")
}

/// The body that says what decides a frame: at the endpoint that sent it, at the one that it is
/// for, and in all.
#[tactic(auto, unfolding(crate::specs::Why::why_body))]
pub fn why_body(
    alloc: Global,
    source: &Option<RuledEndpoint<'_>>,
    destination: &Option<RuledEndpoint<'_>>,
    verdict: &Verdict,
) -> Result<Bytes, Memory>
    ensures { IfOk result (λ body. body ≡ spec.why_body source.now destination.now verdict.now) }
{
    let mut body = Bytes::new(alloc, b"{\"from\":")?;
    append_side(alloc, &mut body, source)?;
    body.append(b",\"to\":")?;
    append_side(alloc, &mut body, destination)?;
    append_verdict_end(alloc, &mut body, verdict)?;
    Ok(body)
}
