//! Classes, local networks and names, and URLs.
ghost use Rattle.std.specs.Prelude.{◌≡◌, ◌++◌, OnOk, IfOk, codes};
ghost use Rattle.console_listings.specs.Rows as spec;
ghost use Rattle.json.specs.Print.{quoted};
ghost use Rattle.console_listings.specs.Lists.{list_text, listing_body};

use crate::addresses::{append_address, append_prefix};
use crate::lists::{JsonRow, append_list, listing_body};
use console_answers::append_quoted;
use mud_base::{Addr, Bytes, End, Memory, Prefix};
use mud_url::MudUrl;
use std::alloc::Global;
use table_model::{Class, ClassRow, NameRow};

impl JsonRow for Addr {
    ghost use Rattle.console_listings.specs.Rows.{address_text};

    ghost text = { address_text };

    fn append(&self, alloc: Global, body: &mut Bytes) -> Result<(), Memory> {
        append_address(alloc, body, *self)
    }
}

impl JsonRow for Prefix {
    ghost use Rattle.console_listings.specs.Rows.{network_text};

    ghost text = { network_text };

    fn append(&self, alloc: Global, body: &mut Bytes) -> Result<(), Memory> {
        append_prefix(alloc, body, *self)
    }
}

impl JsonRow for MudUrl {
    ghost use Rattle.json.specs.Print.{quoted};

    ghost text = { quoted };

    fn append(&self, _alloc: Global, body: &mut Bytes) -> Result<(), Memory> {
        append_quoted(body, self.text())
    }
}

/// Adds the member that names a class.
#[tactic(auto, unfolding(crate::specs::Rows::class_member))]
fn append_class(body: &mut Bytes, class: &Class) -> Result<(), Memory>
    ensures { OnOk result (body.new ≡ body.old ++ spec.class_member class.now) }
{
    match class {
        Class::Uri(uri) => {
            body.append(b",\"class\":")?;
            append_quoted(body, uri.octets())
        }
        Class::Mine(url) => {
            body.append(b",\"my-controller-of\":")?;
            append_quoted(body, url.text())
        }
    }
}

/// Adds the member that is a list of addresses, as the first one.
#[tactic(auto)]
fn append_addresses(alloc: Global, body: &mut Bytes, addrs: &[Addr]) -> Result<(), Memory>
    ensures { OnOk result (body.new ≡ body.old ++ (codes "{\"addresses\":" ++ list_text spec.address_text addrs.now)) }
{
    body.append(b"{\"addresses\":")?;
    append_list(alloc, body, addrs)
}

/// Adds the member that is a list of addresses with their expiries, as the first one.
#[tactic(auto)]
fn append_endings(alloc: Global, body: &mut Bytes, rows: &[(Addr, End)]) -> Result<(), Memory>
    ensures { OnOk result (body.new ≡ body.old ++ (codes "{\"addresses\":" ++ list_text spec.expiring_text rows.now)) }
{
    body.append(b"{\"addresses\":")?;
    append_list(alloc, body, rows)
}

/// Adds the member that is a name, as the last one.
#[tactic(auto)]
fn append_name_end(body: &mut Bytes, name: &[u8]) -> Result<(), Memory>
    ensures { OnOk result (body.new ≡ body.old ++ (codes ",\"name\":" ++ quoted name.now ++ codes "}")) }
{
    body.append(b",\"name\":")?;
    append_quoted(body, name)?;
    body.append(b"}")
}

impl JsonRow for ClassRow {
    ghost use Rattle.console_listings.specs.Rows.{class_text};

    ghost text = { class_text };

    #[tactic(auto, unfolding(crate::specs::Rows::class_text))]
    fn append(&self, alloc: Global, body: &mut Bytes) -> Result<(), Memory> {
        append_addresses(alloc, body, self.addrs.as_slice())?;
        append_class(body, &self.class)?;
        body.append(b"}")
    }
}

impl JsonRow for NameRow {
    ghost use Rattle.console_listings.specs.Rows.{name_text};

    ghost text = { name_text };

    #[tactic(auto, unfolding(crate::specs::Rows::name_text))]
    fn append(&self, alloc: Global, body: &mut Bytes) -> Result<(), Memory> {
        append_endings(alloc, body, self.addrs.as_slice())?;
        append_name_end(body, self.name.octets())
    }
}

/// The body that lists classes, in their order.
#[tactic(auto)]
pub fn classes_body(alloc: Global, classes: &[ClassRow]) -> Result<Bytes, Memory>
    ensures { IfOk result (λ body. body ≡ listing_body spec.class_text (codes "classes") classes.now) }
{
    listing_body(alloc, b"classes", classes)
}

/// The body that lists the local networks, in their order.
#[tactic(auto)]
pub fn locals_body(alloc: Global, locals: &[Prefix]) -> Result<Bytes, Memory>
    ensures { IfOk result (λ body. body ≡ listing_body spec.network_text (codes "locals") locals.now) }
{
    listing_body(alloc, b"locals", locals)
}

/// The body that lists names, in their order.
#[tactic(auto)]
pub fn names_body(alloc: Global, names: &[NameRow]) -> Result<Bytes, Memory>
    ensures { IfOk result (λ body. body ≡ listing_body spec.name_text (codes "names") names.now) }
{
    listing_body(alloc, b"names", names)
}

/// The body that lists the URLs whose files are to be fetched again, in their order.
#[tactic(auto)]
pub fn due_body(alloc: Global, urls: &[MudUrl]) -> Result<Bytes, Memory>
    ensures { IfOk result (λ body. body ≡ listing_body quoted (codes "due") urls.now) }
{
    listing_body(alloc, b"due", urls)
}
