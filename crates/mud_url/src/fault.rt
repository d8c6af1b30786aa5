//! What can be wrong with a MUD URL.
ghost use Rattle.std.specs.Prelude.{◌≡◌};

/// Why octets are no MUD URL. An offset is that of an octet, counted from 0 in the octets that were
/// given.
#[derive(Clone, Copy, Debug)]
pub enum UrlFault {
    /// There are no octets.
    Empty,
    /// The first octet outside 21 to 7E hex stands here.
    Octet(usize),
    /// It doesn't begin with `https://`, in either case.
    Scheme,
    /// What stands before the port isn't a host name (RFC 3986, 3.2.2).
    Host,
    /// The port is neither empty nor 1 to 65535 in decimal without a leading zero (RFC 3986,
    /// 3.2.3).
    Port,
    /// An octet that can't stand in a path or query stands here, or the `%` of a broken triplet
    /// (RFC 3986, 3.3 and 3.4).
    Path(usize),
    /// The authority has an `@` (RFC 3986, 3.2.1).
    UserInfo,
    /// There is a `#` (RFC 3986, 3.5).
    Fragment,
    /// There are more than 255 octets.
    Long,
}

impl UrlFault {
    ghost use Rattle.mud_url.specs.Fault.{number_of, name_of, offset_of};

    /// The number of the fault, from 1 to 9.
    #[tactic(auto, unfolding(crate::specs::Fault::number_of))]
    pub fn number(&self) -> u8
        ensures { result ≡ number_of self.now }
    {
        match self {
            UrlFault::Empty => 1,
            UrlFault::Octet(_) => 2,
            UrlFault::Scheme => 3,
            UrlFault::Host => 4,
            UrlFault::Port => 5,
            UrlFault::Path(_) => 6,
            UrlFault::UserInfo => 7,
            UrlFault::Fragment => 8,
            UrlFault::Long => 9,
        }
    }

    /// The name of the fault, as it is written.
    #[tactic(auto, unfolding(crate::specs::Fault::name_of))]
    pub fn name(&self) -> &'static str
        ensures { result.now ≡ name_of self.now }
    {
        match self {
            UrlFault::Empty => "Empty",
            UrlFault::Octet(_) => "Octet",
            UrlFault::Scheme => "Scheme",
            UrlFault::Host => "Host",
            UrlFault::Port => "Port",
            UrlFault::Path(_) => "Path",
            UrlFault::UserInfo => "UserInfo",
            UrlFault::Fragment => "Fragment",
            UrlFault::Long => "Long",
        }
    }

    /// The offset of the fault, where it has one.
    #[tactic(auto, unfolding(crate::specs::Fault::offset_of))]
    pub fn offset(&self) -> Option<usize>
        ensures { result ≡ offset_of self.now }
    {
        match self {
            UrlFault::Octet(at) | UrlFault::Path(at) => Some(*at),
            _ => None,
        }
    }
}
