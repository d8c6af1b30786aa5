//! Things, and addresses with their expiries.
ghost use Rattle.std.specs.Prelude.{◌≡◌, ◌++◌, OnOk, IfOk, codes};
ghost use Rattle.console_answers.specs.Texts.{url_text};
ghost use Rattle.console_listings.specs.Texts.{truth_text, until_text};
ghost use Rattle.console_listings.specs.Rows as spec;
ghost use Rattle.mud_base.specs.Texts.{addr_text};
ghost use Rattle.json.specs.Print.{quoted};
ghost use Rattle.console_listings.specs.Lists.{listing_body};

use crate::addresses::{append_address, append_mac};
use crate::lists::{JsonRow, append_list, listing_body};
use console_answers::append_quoted;
use mud_base::{Addr, Bytes, End, Memory};
use mud_url::MudUrl;
use std::alloc::Global;
use table_model::Thing;
use text_values::append_decimal;

/// Adds an expiry: its seconds, or null for what never expires.
#[tactic(auto, unfolding(crate::specs::Texts::until_text))]
fn append_until(body: &mut Bytes, until: End) -> Result<(), Memory>
    ensures { OnOk result (body.new ≡ body.old ++ until_text until) }
{
    if until.0 == End::NEVER {
        return body.append(b"null");
    }
    append_decimal(body, until.0)
}

/// Adds the member that says when something expires, as the last one.
#[tactic(auto, unfolding(crate::specs::Rows::until_end))]
fn append_until_end(body: &mut Bytes, until: End) -> Result<(), Memory>
    ensures { OnOk result (body.new ≡ body.old ++ spec.until_end until) }
{
    body.append(b",\"until\":")?;
    append_until(body, until)?;
    body.push(b'}')
}

/// Adds the member that is a URL, as the last one.
#[tactic(auto, unfolding(crate::specs::Rows::url_end))]
pub(crate) fn append_url_end(body: &mut Bytes, url: &MudUrl) -> Result<(), Memory>
    ensures { OnOk result (body.new ≡ body.old ++ spec.url_end url.now) }
{
    body.append(b",\"url\":")?;
    append_quoted(body, url.text())?;
    body.push(b'}')
}

/// Adds an address with its expiry.
#[tactic(auto)]
fn append_expiring(alloc: Global, body: &mut Bytes, address: Addr, until: End) -> Result<(), Memory>
    ensures { OnOk result (body.new ≡ body.old ++ (codes "{\"address\":" ++ quoted (addr_text address) ++ spec.until_end until)) }
{
    body.append(b"{\"address\":")?;
    append_address(alloc, body, address)?;
    append_until_end(body, until)
}

impl JsonRow for (Addr, End) {
    ghost use Rattle.console_listings.specs.Rows.{expiring_text};

    ghost text = { expiring_text };

    fn append(&self, alloc: Global, body: &mut Bytes) -> Result<(), Memory> {
        append_expiring(alloc, body, self.0, self.1)
    }
}

/// Adds whether a Thing is held, as the first member, and the name of the next one.
#[tactic(auto, unfolding(crate::specs::Texts::truth_text))]
fn append_held(body: &mut Bytes, held: bool) -> Result<(), Memory>
    ensures { OnOk result (body.new ≡ body.old ++ (codes "{\"held\":" ++ truth_text held ++ codes ",\"leases\":")) }
{
    if held {
        return body.append(b"{\"held\":true,\"leases\":");
    }
    body.append(b"{\"held\":false,\"leases\":")
}

/// Adds a Thing's first members.
#[tactic(auto, unfolding(crate::specs::Rows::leases_text))]
fn append_leases(alloc: Global, body: &mut Bytes, thing: &Thing) -> Result<(), Memory>
    ensures { OnOk result (body.new ≡ body.old ++ spec.leases_text thing.now) }
{
    append_held(body, thing.held)?;
    append_list(alloc, body, thing.leases.as_slice())
}

/// Adds a URL, or null where there is none.
#[tactic(auto, unfolding(console_answers::specs::Texts::url_text))]
fn append_url(body: &mut Bytes, url: &Option<MudUrl>) -> Result<(), Memory>
    ensures { OnOk result (body.new ≡ body.old ++ url_text url.now) }
{
    match url {
        None => body.append(b"null"),
        Some(url) => append_quoted(body, url.text()),
    }
}

/// Adds a Thing's last members.
#[tactic(auto)]
fn append_urls(body: &mut Bytes, pending: &Option<MudUrl>, url: &MudUrl) -> Result<(), Memory>
    ensures { OnOk result (body.new ≡ body.old ++ (codes ",\"pending\":" ++ url_text pending.now ++ spec.url_end url.now)) }
{
    body.append(b",\"pending\":")?;
    append_url(body, pending)?;
    append_url_end(body, url)
}

impl JsonRow for Thing {
    ghost use Rattle.console_listings.specs.Rows.{thing_text};

    ghost text = { thing_text };

    #[tactic(auto, unfolding(crate::specs::Rows::thing_text))]
    fn append(&self, alloc: Global, body: &mut Bytes) -> Result<(), Memory> {
        append_leases(alloc, body, self)?;
        body.append(b",\"mac\":")?;
        append_mac(body, self.mac)?;
        append_urls(body, &self.pending, &self.url)
    }
}

/// The body that lists Things, in their order.
#[tactic(auto)]
pub fn things_body(alloc: Global, things: &[Thing]) -> Result<Bytes, Memory>
    ensures { IfOk result (λ body. body ≡ listing_body spec.thing_text (codes "things") things.now) }
{
    listing_body(alloc, b"things", things)
}
