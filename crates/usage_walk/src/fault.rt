//! Why a usage file is refused.
ghost use Rattle.std.specs.Prelude.{◌≡◌};

use mud_base::{Bytes, Refusal};
use mud_url::UrlFault;

/// The rules of usage files. The first rule that is broken, in the order in which a file is read,
/// is the one that a refusal names.
#[derive(Clone, Copy)]
pub enum Rule {
    /// The file has more than 262,144 octets.
    TooLong,
    /// The octets are no JSON text (RFC 8259).
    Json,
    /// A member that has to be there isn't.
    Missing,
    /// A value is of another JSON kind.
    WrongKind,
    /// `mud-version` isn't 1 (RFC 8520, 3.1).
    Version,
    /// `mud-url` isn't a MUD URL.
    Url,
    /// `last-update` isn't a date and time (RFC 8520, 3.4; RFC 3339, 5.6).
    Update,
    /// `cache-validity` isn't 1 to 168 hours (RFC 8520, 3.5).
    Validity,
    /// A policy names an access list that isn't there.
    NoSuchAcl,
    /// The type of an access list is another one than `ipv4-acl-type` and `ipv6-acl-type`.
    AclType,
    /// A member inside `matches` isn't known.
    UnknownMatch,
    /// An entry has more than one of `tcp`, `udp` and `icmp`.
    TwoLayers,
    /// The lower port is above the upper one, or a range stands beside a single port.
    PortRange,
    /// A DNS name stands at the Thing's own side.
    NameSide,
    /// `direction-initiated` stands in `udp` or `icmp` (RFC 8520, 4.8).
    DirectionNotTcp,
    /// `forwarding` is another text than `accept`, `drop` and `reject` (RFC 8519, 4.1).
    Action,
    /// A direction has more than 128 entries.
    EntriesFull,
    /// A name is no host name, a model no MUD URL, or a controller no URI.
    NameText,
    /// A name stands in one list for the second time.
    RepeatedName,
    /// A test of the one IP version stands in a list of the other.
    Family,
    /// A network is no prefix of its IP version.
    PrefixText,
    /// `dscp` is above 63, `ecn` above 3, `ttl`, `protocol` or an ICMP type or code above 255, or
    /// `length` or a port above 65535.
    Range,
    /// A direction is neither `to-device` nor `from-device` (RFC 8520, 4.8).
    DirectionText,
    /// An operator is none of `eq`, `neq`, `lte` and `gte` (RFC 8519, 4.2).
    Operator,
    /// `flags` names another word than a flag of TCP or one flag twice, or has a space at an end
    /// (RFC 8519, 4.2).
    FlagText,
}

impl Rule {
    ghost use Rattle.usage_walk.specs.Names.{number_of, name_of};

    /// The number of the rule, from 1 to 25.
    #[tactic(auto, unfolding(crate::specs::Names::number_of))]
    pub fn number(&self) -> u8
        ensures { result ≡ number_of self.now }
    {
        match self {
            Rule::TooLong => 1,
            Rule::Json => 2,
            Rule::Missing => 3,
            Rule::WrongKind => 4,
            Rule::Version => 5,
            Rule::Url => 6,
            Rule::Update => 7,
            Rule::Validity => 8,
            Rule::NoSuchAcl => 9,
            Rule::AclType => 10,
            Rule::UnknownMatch => 11,
            Rule::TwoLayers => 12,
            Rule::PortRange => 13,
            Rule::NameSide => 14,
            Rule::DirectionNotTcp => 15,
            Rule::Action => 16,
            Rule::EntriesFull => 17,
            Rule::NameText => 18,
            Rule::RepeatedName => 19,
            Rule::Family => 20,
            Rule::PrefixText => 21,
            Rule::Range => 22,
            Rule::DirectionText => 23,
            Rule::Operator => 24,
            Rule::FlagText => 25,
        }
    }

    /// The name of the rule, as it is written.
    #[tactic(auto, unfolding(crate::specs::Names::name_of))]
    pub fn name(&self) -> &'static str
        ensures { result.now ≡ name_of self.now }
    {
        match self {
            Rule::TooLong => "TooLong",
            Rule::Json => "Json",
            Rule::Missing => "Missing",
            Rule::WrongKind => "WrongKind",
            Rule::Version => "Version",
            Rule::Url => "Url",
            Rule::Update => "Update",
            Rule::Validity => "Validity",
            Rule::NoSuchAcl => "NoSuchAcl",
            Rule::AclType => "AclType",
            Rule::UnknownMatch => "UnknownMatch",
            Rule::TwoLayers => "TwoLayers",
            Rule::PortRange => "PortRange",
            Rule::NameSide => "NameSide",
            Rule::DirectionNotTcp => "DirectionNotTcp",
            Rule::Action => "Action",
            Rule::EntriesFull => "EntriesFull",
            Rule::NameText => "NameText",
            Rule::RepeatedName => "RepeatedName",
            Rule::Family => "Family",
            Rule::PrefixText => "PrefixText",
            Rule::Range => "Range",
            Rule::DirectionText => "DirectionText",
            Rule::Operator => "Operator",
            Rule::FlagText => "FlagText",
        }
    }
}

/// A broken rule: which one, and where.
#[derive(Drop)]
pub struct Broken {
    /// The first rule that is broken.
    pub rule: Rule,
    /// The JSON pointer (RFC 6901) of what breaks it; of a member that is missing, where it would
    /// stand.
    pub path: Bytes,
    /// What is wrong with the URL of the file, where that is the rule.
    pub url: Option<UrlFault>,
}

/// Why a usage file has no reading: want of memory, or the first rule that it breaks.
pub type FileFault = Refusal<Broken>;
