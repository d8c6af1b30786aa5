//! Usage files.
use acl_model::Policy;
use mud_base::{Bytes, Listed};
use mud_url::MudUrl;

/// What a usage file says of itself (RFC 8520, 3).
#[derive(Drop)]
pub struct Head {
    /// Its own URL.
    pub url: MudUrl,
    /// When it was generated, in seconds since 1970-01-01T00:00:00Z, negative before that.
    pub update: i64,
    /// For how many hours it needn't be asked for again, from 1 to 168.
    pub hours: u8,
    /// Whether its maker still supports the Thing.
    pub supported: bool,
    /// Where its signature is, as it says.
    pub signature: Option<Bytes>,
    /// The names of the MUD extensions that it uses. They are kept and not acted on.
    pub extensions: Listed<Bytes>,
}

/// A usage file (RFC 8520).
pub struct UsageFile {
    /// Its own URL.
    pub url: MudUrl,
    /// When it was generated, in seconds since 1970-01-01T00:00:00Z, negative before that.
    pub update: i64,
    /// For how many hours it needn't be asked for again, from 1 to 168.
    pub hours: u8,
    /// Whether its maker still supports the Thing.
    pub supported: bool,
    /// Where its signature is, as it says.
    pub signature: Option<Bytes>,
    /// The names of the MUD extensions that it uses. They are kept and not acted on.
    pub extensions: Listed<Bytes>,
    /// Its entries, of at most 128 for each direction.
    pub policy: Policy,
}

// It is written out, so that what lets one go doesn't prove again how each part is dropped.
impl Drop for UsageFile {
    fn drop(self) {
        let UsageFile {
            url: _,
            update: _,
            hours: _,
            supported: _,
            signature: _,
            extensions: _,
            policy: _,
        } = self;
    }
}
