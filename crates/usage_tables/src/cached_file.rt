//! The files that are held of one URL.
use crate::approval::Approval;
use crate::held::Held;
use base_rows::{KeyOf, Sortable};
use mud_base::octets_order;
use mud_url::MudUrl;
use std::cmp::Ordering;

/// The files of one URL: at least one of the two.
#[derive(Drop)]
pub struct CachedFile {
    /// The URL, by whose text files are ordered.
    pub url: MudUrl,
    /// The file that the operator approved, and how: its entries are in force.
    pub approved: Option<(Held, Approval)>,
    /// A file that waits for the operator's verdict.
    pub candidate: Option<Held>,
}

impl Sortable for CachedFile {
    ghost use Rattle.usage_tables.specs.Files.{url_of};

    ghost sort_key = { url_of };

    #[tactic(auto, unfolding(crate::specs::Files::url_of))]
    fn order(&self, other: &CachedFile) -> Ordering {
        octets_order(self.url.text(), other.url.text())
    }
}

/// What is held of a URL is found by its text.
impl KeyOf<CachedFile> for MudUrl {
    ghost use Rattle.usage_tables.specs.Files.{url_of};

    ghost sort_key = { λ url. url };

    #[tactic(auto, unfolding(crate::specs::Files::url_of))]
    fn order_to(&self, file: &CachedFile) -> Ordering {
        octets_order(self.text(), file.url.text())
    }
}
