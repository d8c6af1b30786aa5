//! The members of usage files.
ghost use Rattle.std.specs.Prelude.{◌≡◌};

/// The members of a usage file that are read (RFC 8520, 2 to 9; RFC 8519, 4), each by its name.
/// Members of several objects that share a name share a variant.
#[derive(Clone, Copy)]
pub enum Member {
    /// `ietf-mud:mud`
    Mud,
    /// `mud-version`
    MudVersion,
    /// `mud-url`
    MudUrl,
    /// `last-update`
    LastUpdate,
    /// `cache-validity`
    CacheValidity,
    /// `is-supported`
    IsSupported,
    /// `mud-signature`
    MudSignature,
    /// `systeminfo`
    SystemInfo,
    /// `mfg-name`
    MfgName,
    /// `model-name`
    ModelName,
    /// `firmware-rev`
    FirmwareRev,
    /// `software-rev`
    SoftwareRev,
    /// `documentation`
    Documentation,
    /// `extensions`
    Extensions,
    /// `from-device-policy`
    FromDevicePolicy,
    /// `to-device-policy`
    ToDevicePolicy,
    /// `access-lists`
    AccessLists,
    /// `access-list`
    AccessList,
    /// `name`
    Name,
    /// `ietf-access-control-list:acls`
    Acls,
    /// `acl`
    Acl,
    /// `type`
    Kind,
    /// `aces`
    Aces,
    /// `ace`
    Ace,
    /// `matches`
    Matches,
    /// `actions`
    Actions,
    /// `forwarding`
    Forwarding,
    /// `ipv4`
    Ipv4,
    /// `ipv6`
    Ipv6,
    /// `tcp`
    Tcp,
    /// `udp`
    Udp,
    /// `icmp`
    Icmp,
    /// `manufacturer`
    Manufacturer,
    /// `same-manufacturer`
    SameManufacturer,
    /// `model`
    Model,
    /// `local-networks`
    LocalNetworks,
    /// `controller`
    Controller,
    /// `my-controller`
    MyController,
    /// `dscp`
    Dscp,
    /// `ecn`
    Ecn,
    /// `length`
    Length,
    /// `ttl`
    Ttl,
    /// `protocol`
    Protocol,
    /// `source-ipv4-network`
    SourceIpv4Network,
    /// `destination-ipv4-network`
    DestinationIpv4Network,
    /// `source-ipv6-network`
    SourceIpv6Network,
    /// `destination-ipv6-network`
    DestinationIpv6Network,
    /// `ietf-acldns:src-dnsname`
    SrcDnsname,
    /// `ietf-acldns:dst-dnsname`
    DstDnsname,
    /// `source-port`
    SourcePort,
    /// `destination-port`
    DestinationPort,
    /// `ietf-mud:direction-initiated`
    DirectionInitiated,
    /// `flags`
    Flags,
    /// `code`
    Code,
    /// `operator`
    Operator,
    /// `port`
    Port,
    /// `lower-port`
    LowerPort,
    /// `upper-port`
    UpperPort,
}

impl Member {
    ghost use Rattle.usage_walk.specs.Members.{name_of};

    /// The name of the member.
    #[tactic(auto, unfolding(crate::specs::Members::name_of))]
    pub fn name(self) -> &'static str
        ensures { result.now ≡ name_of self }
    {
        match self {
            Member::Mud => "ietf-mud:mud",
            Member::MudVersion => "mud-version",
            Member::MudUrl => "mud-url",
            Member::LastUpdate => "last-update",
            Member::CacheValidity => "cache-validity",
            Member::IsSupported => "is-supported",
            Member::MudSignature => "mud-signature",
            Member::SystemInfo => "systeminfo",
            Member::MfgName => "mfg-name",
            Member::ModelName => "model-name",
            Member::FirmwareRev => "firmware-rev",
            Member::SoftwareRev => "software-rev",
            Member::Documentation => "documentation",
            Member::Extensions => "extensions",
            Member::FromDevicePolicy => "from-device-policy",
            Member::ToDevicePolicy => "to-device-policy",
            Member::AccessLists => "access-lists",
            Member::AccessList => "access-list",
            Member::Name => "name",
            Member::Acls => "ietf-access-control-list:acls",
            Member::Acl => "acl",
            Member::Kind => "type",
            Member::Aces => "aces",
            Member::Ace => "ace",
            Member::Matches => "matches",
            Member::Actions => "actions",
            Member::Forwarding => "forwarding",
            Member::Ipv4 => "ipv4",
            Member::Ipv6 => "ipv6",
            Member::Tcp => "tcp",
            Member::Udp => "udp",
            Member::Icmp => "icmp",
            Member::Manufacturer => "manufacturer",
            Member::SameManufacturer => "same-manufacturer",
            Member::Model => "model",
            Member::LocalNetworks => "local-networks",
            Member::Controller => "controller",
            Member::MyController => "my-controller",
            Member::Dscp => "dscp",
            Member::Ecn => "ecn",
            Member::Length => "length",
            Member::Ttl => "ttl",
            Member::Protocol => "protocol",
            Member::SourceIpv4Network => "source-ipv4-network",
            Member::DestinationIpv4Network => "destination-ipv4-network",
            Member::SourceIpv6Network => "source-ipv6-network",
            Member::DestinationIpv6Network => "destination-ipv6-network",
            Member::SrcDnsname => "ietf-acldns:src-dnsname",
            Member::DstDnsname => "ietf-acldns:dst-dnsname",
            Member::SourcePort => "source-port",
            Member::DestinationPort => "destination-port",
            Member::DirectionInitiated => "ietf-mud:direction-initiated",
            Member::Flags => "flags",
            Member::Code => "code",
            Member::Operator => "operator",
            Member::Port => "port",
            Member::LowerPort => "lower-port",
            Member::UpperPort => "upper-port",
        }
    }
}
