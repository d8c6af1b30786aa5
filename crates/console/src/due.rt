//! The URLs whose files are to be fetched again.
ghost use Rattle.std.specs.Prelude.{◌≡◌, OnOk, IfOk, codes};
ghost use Rattle.usage_tables.specs.Due.{due_urls};
ghost use Rattle.console_listings.specs.Lists.{listing_body};
ghost use Rattle.json.specs.Print.{quoted};

use console_listings::due_body;
use file_cache::is_due;
use mud_base::{Bytes, Listed, Memory, Moment};
use mud_url::MudUrl;
use std::alloc::Global;
use usage_tables::CachedFile;

/// The URLs, in their order.
#[tactic(auto, using(crate::proofs::Dues::due_none, crate::proofs::Dues::due_next, crate::proofs::Dues::due_passed, crate::proofs::Dues::due_all))]
fn due_urls(alloc: Global, files: &[CachedFile], now: Moment) -> Result<Listed<MudUrl>, Memory>
    ensures { IfOk result (λ urls. urls ≡ due_urls now files.now) }
{
    let mut urls = Listed::new(alloc);
    'rows: for row in files {
        if is_due(row, now) {
            urls.push(row.url)?;
        }
    }
    Ok(urls)
}

/// The body that lists the URLs of which a file is to be fetched again at a moment, in their order.
pub(crate) fn due_text(alloc: Global, files: &[CachedFile], now: Moment) -> Result<Bytes, Memory>
    ensures { IfOk result (λ text. text ≡ listing_body quoted (codes "due") (due_urls now files.now)) }
{
    let urls = due_urls(alloc, files, now)?;
    due_body(alloc, urls.as_slice())
}
