//! Usage files that are held.
ghost use Rattle.std.specs.Prelude.{◌≡◌, ◌++◌, OnOk, IfOk, codes, decimal};
ghost use Rattle.console_listings.specs.Rows as spec;
ghost use Rattle.console_listings.specs.Lists.{listing_body};

use crate::lists::{JsonRow, listing_body};
use crate::things::append_url_end;
use console_answers::append_quoted;
use mud_base::{Bytes, Memory};
use mud_file::UsageFile;
use std::alloc::Global;
use text_values::{append_decimal, append_signed};
use usage_tables::{Approval, CachedFile, Held};

/// Adds when a file was fetched.
#[tactic(auto)]
fn append_moment(body: &mut Bytes, fetched: u64) -> Result<(), Memory>
    ensures { OnOk result (body.new ≡ body.old ++ (codes "{\"fetched\":" ++ decimal fetched)) }
{
    body.append(b"{\"fetched\":")?;
    append_decimal(body, fetched)
}

/// Adds for how many hours a file is valid.
#[tactic(auto)]
fn append_hours(body: &mut Bytes, hours: u8) -> Result<(), Memory>
    ensures { OnOk result (body.new ≡ body.old ++ (codes ",\"hours\":" ++ decimal hours)) }
{
    body.append(b",\"hours\":")?;
    append_decimal(body, u64::from(hours))
}

/// Adds when a file was fetched, and for how long it is valid.
#[tactic(auto)]
fn append_fetched(body: &mut Bytes, held: &Held, file: &UsageFile) -> Result<(), Memory>
    ensures { OnOk result (body.new ≡ body.old ++ (codes "{\"fetched\":" ++ decimal held.now.fetched ++ codes ",\"hours\":" ++ decimal file.now.hours)) }
{
    append_moment(body, held.fetched().seconds())?;
    append_hours(body, file.hours)
}

/// Adds a file's digest, and when it was generated.
#[tactic(auto, unfolding(crate::specs::Rows::digest_text))]
fn append_digest(body: &mut Bytes, held: &Held, file: &UsageFile) -> Result<(), Memory>
    ensures { OnOk result (body.new ≡ body.old ++ spec.digest_text held.now file.now) }
{
    body.append(b",\"sha256\":")?;
    append_quoted(body, held.digest())?;
    body.append(b",\"update\":")?;
    append_signed(body, file.update)
}

/// Adds the members of a file that is held.
#[tactic(auto, unfolding(crate::specs::Rows::held_text))]
fn append_held(body: &mut Bytes, held: &Held) -> Result<(), Memory>
    ensures { OnOk result (body.new ≡ body.old ++ spec.held_text held.now) }
{
    let file = held.file();
    append_fetched(body, held, file)?;
    append_digest(body, held, file)
}

/// Adds an approved file, or null.
#[tactic(auto, unfolding(crate::specs::Rows::approved_text))]
fn append_approved(body: &mut Bytes, approved: &Option<(Held, Approval)>) -> Result<(), Memory>
    ensures { OnOk result (body.new ≡ body.old ++ spec.approved_text approved.now) }
{
    match approved {
        None => body.append(b"null"),
        Some((held, approval)) => {
            append_held(body, held)?;
            body.append(b",\"verdict\":")?;
            append_quoted(body, approval.word())?;
            body.append(b"}")
        }
    }
}

/// Adds a candidate, or null.
#[tactic(auto, unfolding(crate::specs::Rows::candidate_text))]
fn append_candidate(body: &mut Bytes, candidate: &Option<Held>) -> Result<(), Memory>
    ensures { OnOk result (body.new ≡ body.old ++ spec.candidate_text candidate.now) }
{
    match candidate {
        None => body.append(b"null"),
        Some(held) => {
            append_held(body, held)?;
            body.append(b"}")
        }
    }
}

/// Adds the files of a URL.
#[tactic(auto, unfolding(crate::specs::Rows::holdings_text))]
fn append_holdings(body: &mut Bytes, row: &CachedFile) -> Result<(), Memory>
    ensures { OnOk result (body.new ≡ body.old ++ spec.holdings_text row.now) }
{
    body.append(b"{\"approved\":")?;
    append_approved(body, &row.approved)?;
    body.append(b",\"candidate\":")?;
    append_candidate(body, &row.candidate)
}

impl JsonRow for CachedFile {
    ghost use Rattle.console_listings.specs.Rows.{cached_text};

    ghost text = { cached_text };

    #[tactic(auto, unfolding(crate::specs::Rows::cached_text))]
    fn append(&self, _alloc: Global, body: &mut Bytes) -> Result<(), Memory> {
        append_holdings(body, self)?;
        append_url_end(body, &self.url)
    }
}

/// The body that lists the files that are held, in the order of their URLs.
#[tactic(auto)]
pub fn files_body(alloc: Global, files: &[CachedFile]) -> Result<Bytes, Memory>
    ensures { IfOk result (λ body. body ≡ listing_body spec.cached_text (codes "files") files.now) }
{
    listing_body(alloc, b"files", files)
}
