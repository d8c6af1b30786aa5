//! The containers inside `matches`. Each is an object that is read by its table.
ghost use Rattle.std.specs.Prelude.{◌≡◌, Some, None};
ghost use Rattle.serde_json.specs.View.{view};
ghost use Rattle.mud_base.specs.Readings.{Gives};
ghost use Rattle.usage_walk.specs.Kinds.{leaf_where_there};
ghost use Rattle.usage_match.specs.Containers as spec;
ghost use Rattle.acl_model.specs.declared.entry.PortTest.TheVariants as port;

use crate::entry_tests::{IpTests, ListType, MudTests};
use crate::flags::flags_where_there;
use crate::ports::{port_where_there, stands};
use crate::texts::{
    direction_where_there, host_where_there, length_where_there, model_where_there,
    network_where_there, octet_where_there, uri_where_there,
};
use crate::ways::{IpWay, LayerKind, LayerTests, LayerWay, MudWay};
use acl_model::{Layer, PortTest};
use mud_base::{Bytes, Direction};
use usage_walk::kinds::leaf_where_there;
use usage_walk::path::refuse_where;
use usage_walk::table::read_container;
use usage_walk::{FileFault, Member, Reads, Row, Rule, Spot};

/// The table of `ietf-mud:mud`.
#[tactic(auto, unfolding(crate::specs::Containers::mud_rows))]
fn mud_rows() -> [Row<MudWay>; 6]
    ensures { result ≡ spec.mud_rows }
{
    [
        Row::new(Member::Manufacturer, MudWay::Manufacturer),
        Row::new(Member::SameManufacturer, MudWay::SameManufacturer),
        Row::new(Member::Model, MudWay::Model),
        Row::new(Member::LocalNetworks, MudWay::LocalNetworks),
        Row::new(Member::Controller, MudWay::Controller),
        Row::new(Member::MyController, MudWay::MyController),
    ]
}

/// Whether an empty leaf is there.
fn leaf(spot: Spot<'_>) -> Result<bool, FileFault>
    ensures { Gives (λ b. b) result (leaf_where_there spot.entry.path.now spot.entry.member (Some (view spot.entry.object.now))) }
{
    leaf_where_there(spot.alloc, Some(spot.object), spot.path, spot.member)
}

impl Reads for MudWay {
    ghost use Rattle.usage_match.specs.Containers.{mud_ways};

    type Meaning = MudTests;

    ghost reading = { mud_ways };

    #[tactic(auto, unfolding(crate::specs::Containers::mud_ways), using(mud_base::proofs::Readings::answer_bind, mud_base::proofs::Readings::answer_done))]
    fn read(self, spot: Spot<'_>, so_far: &mut MudTests) -> Result<(), FileFault> {
        match self {
            MudWay::Manufacturer => so_far.manufacturer = host_where_there(spot)?,
            MudWay::SameManufacturer => so_far.same_manufacturer = leaf(spot)?,
            MudWay::Model => so_far.model = model_where_there(spot)?,
            MudWay::LocalNetworks => so_far.local_networks = leaf(spot)?,
            MudWay::Controller => so_far.controller = uri_where_there(spot)?,
            MudWay::MyController => so_far.my_controller = leaf(spot)?,
        }
        Ok(())
    }
}

/// Nothing is asked of the peer by `ietf-mud:mud`.
#[tactic(auto, unfolding(crate::specs::Containers::no_mud_tests))]
pub(crate) fn no_mud_tests() -> MudTests
    ensures { result ≡ spec.no_mud_tests }
{
    MudTests {
        manufacturer: None,
        same_manufacturer: false,
        model: None,
        local_networks: false,
        controller: None,
        my_controller: false,
    }
}

/// What `ietf-mud:mud` asks of the peer (RFC 8520, 4). Where there is none, it asks nothing.
#[tactic(auto, unfolding(crate::specs::Containers::mud_at), using(mud_base::proofs::Readings::answer_bind, mud_base::proofs::Readings::answer_done))]
pub(crate) fn mud_at(spot: Spot<'_>) -> Result<MudTests, FileFault>
    ensures { Gives (λ t. t) result (spec.mud_at spot.entry.path.now spot.entry.member (view spot.entry.object.now)) }
{
    let found = read_container(spot, &mud_rows(), no_mud_tests())?;
    Ok(found.unwrap_or(no_mud_tests()))
}

/// The member that names the source network in the container of an IP version.
#[tactic(auto, unfolding(crate::specs::Containers::source_network))]
fn source_network(list_type: ListType) -> Member
    ensures { result ≡ spec.source_network list_type }
{
    match list_type {
        ListType::Ipv4 => Member::SourceIpv4Network,
        ListType::Ipv6 => Member::SourceIpv6Network,
    }
}

/// The member that names the destination network in the container of an IP version.
#[tactic(auto, unfolding(crate::specs::Containers::destination_network))]
fn destination_network(list_type: ListType) -> Member
    ensures { result ≡ spec.destination_network list_type }
{
    match list_type {
        ListType::Ipv4 => Member::DestinationIpv4Network,
        ListType::Ipv6 => Member::DestinationIpv6Network,
    }
}

/// Whether the Thing is the source of the packets of a direction: of those that it sends.
#[tactic(auto, unfolding(crate::specs::Containers::is_source))]
fn is_source(side: Direction) -> bool
    ensures { result ≡ spec.is_source side }
{
    match side {
        Direction::From => true,
        Direction::To => false,
    }
}

/// The table of `ipv4` or `ipv6`, in a list of a direction.
#[tactic(auto, unfolding(crate::specs::Containers::ip_rows))]
fn ip_rows(list_type: ListType, side: Direction) -> [Row<IpWay>; 9]
    ensures { result ≡ spec.ip_rows list_type side }
{
    [
        Row::new(Member::Dscp, IpWay::Dscp),
        Row::new(Member::Ecn, IpWay::Ecn),
        Row::new(Member::Length, IpWay::Length),
        Row::new(Member::Ttl, IpWay::Ttl),
        Row::new(Member::Protocol, IpWay::Protocol),
        Row::new(source_network(list_type), IpWay::Source(list_type)),
        Row::new(
            destination_network(list_type),
            IpWay::Destination(list_type),
        ),
        Row::new(Member::SrcDnsname, IpWay::SourceName(is_source(side))),
        Row::new(Member::DstDnsname, IpWay::DestinationName(!is_source(side))),
    ]
}

/// The DNS name of a side of the packet, where it is there. It may not stand at the Thing's own
/// side.
#[tactic(auto, unfolding(crate::specs::Containers::name_where_there), using(mud_base::proofs::Readings::answer_bind))]
fn name_where_there(spot: Spot<'_>, is_own: bool) -> Result<Option<Bytes>, FileFault>
    ensures { Gives (λ n. n) result (spec.name_where_there is_own spot.entry.path.now spot.entry.member (view spot.entry.object.now)) }
{
    let breaks = is_own && stands(spot.object, spot.member);
    refuse_where(spot.alloc, breaks, Rule::NameSide, spot.path, spot.member)?;
    host_where_there(spot)
}

impl Reads for IpWay {
    ghost use Rattle.usage_match.specs.Containers.{ip_ways};

    type Meaning = IpTests;

    ghost reading = { ip_ways };

    #[tactic(auto, unfolding(crate::specs::Containers::ip_ways), using(mud_base::proofs::Readings::answer_bind, mud_base::proofs::Readings::answer_done))]
    fn read(self, spot: Spot<'_>, so_far: &mut IpTests) -> Result<(), FileFault> {
        match self {
            IpWay::Dscp => so_far.dscp = octet_where_there(spot, 63)?,
            IpWay::Ecn => so_far.ecn = octet_where_there(spot, 3)?,
            IpWay::Length => so_far.length = length_where_there(spot)?,
            IpWay::Ttl => so_far.ttl = octet_where_there(spot, 255)?,
            IpWay::Protocol => so_far.protocol = octet_where_there(spot, 255)?,
            IpWay::Source(list_type) => so_far.source = network_where_there(spot, list_type)?,
            IpWay::Destination(list_type) => so_far.destination = network_where_there(
                spot, list_type,
            )?,
            IpWay::SourceName(is_own) => so_far.source_name = name_where_there(spot, is_own)?,
            IpWay::DestinationName(is_own) => so_far.destination_name = name_where_there(
                spot, is_own,
            )?,
        }
        Ok(())
    }
}

/// Nothing is asked by `ipv4` or `ipv6`.
#[tactic(auto, unfolding(crate::specs::Containers::no_ip_tests))]
pub(crate) fn no_ip_tests() -> IpTests
    ensures { result ≡ spec.no_ip_tests }
{
    IpTests {
        dscp: None,
        ecn: None,
        length: None,
        ttl: None,
        protocol: None,
        source: None,
        destination: None,
        source_name: None,
        destination_name: None,
    }
}

/// What `ipv4` or `ipv6` asks (RFC 8519, 4.2; RFC 8520, 8), in a list of a direction. Where there is
/// none, it asks nothing.
#[tactic(auto, unfolding(crate::specs::Containers::ip_at), using(mud_base::proofs::Readings::answer_bind, mud_base::proofs::Readings::answer_done))]
pub(crate) fn ip_at(
    spot: Spot<'_>,
    list_type: ListType,
    side: Direction,
) -> Result<IpTests, FileFault>
    ensures { Gives (λ t. t) result (spec.ip_at list_type side spot.entry.path.now spot.entry.member (view spot.entry.object.now)) }
{
    let found = read_container(spot, &ip_rows(list_type, side), no_ip_tests())?;
    Ok(found.unwrap_or(no_ip_tests()))
}

/// The table of `tcp`, `udp` or `icmp`.
#[tactic(auto, unfolding(crate::specs::Containers::layer_rows))]
fn layer_rows(kind: LayerKind) -> &'static [Row<LayerWay>]
    ensures { result.now ≡ spec.layer_rows kind }
{
    match kind {
        LayerKind::Tcp => &[
            Row {
                member: Member::SourcePort,
                how: LayerWay::Source,
            },
            Row {
                member: Member::DestinationPort,
                how: LayerWay::Destination,
            },
            Row {
                member: Member::DirectionInitiated,
                how: LayerWay::Begun,
            },
            Row {
                member: Member::Flags,
                how: LayerWay::Flags,
            },
        ],
        LayerKind::Udp => &[
            Row {
                member: Member::SourcePort,
                how: LayerWay::Source,
            },
            Row {
                member: Member::DestinationPort,
                how: LayerWay::Destination,
            },
            Row {
                member: Member::DirectionInitiated,
                how: LayerWay::Refused,
            },
        ],
        LayerKind::Icmp => &[
            Row {
                member: Member::Kind,
                how: LayerWay::Kind,
            },
            Row {
                member: Member::Code,
                how: LayerWay::Code,
            },
            Row {
                member: Member::DirectionInitiated,
                how: LayerWay::Refused,
            },
        ],
    }
}

/// Refuses a direction outside of `tcp` (RFC 8520, 4.8).
#[tactic(auto, unfolding(crate::specs::Containers::no_direction))]
fn no_direction(spot: Spot<'_>) -> Result<(), FileFault>
    ensures { Gives (λ _. tt) result (spec.no_direction spot.entry.path.now spot.entry.member (view spot.entry.object.now)) }
{
    let breaks = stands(spot.object, spot.member);
    refuse_where(
        spot.alloc,
        breaks,
        Rule::DirectionNotTcp,
        spot.path,
        spot.member,
    )
}

impl Reads for LayerWay {
    ghost use Rattle.usage_match.specs.Containers.{layer_ways};

    type Meaning = LayerTests;

    ghost reading = { layer_ways };

    #[tactic(auto, unfolding(crate::specs::Containers::layer_ways), using(mud_base::proofs::Readings::answer_bind, mud_base::proofs::Readings::answer_done))]
    fn read(self, spot: Spot<'_>, so_far: &mut LayerTests) -> Result<(), FileFault> {
        match self {
            LayerWay::Source => so_far.source = port_where_there(spot)?,
            LayerWay::Destination => so_far.destination = port_where_there(spot)?,
            LayerWay::Begun => so_far.begun = direction_where_there(spot)?,
            LayerWay::Flags => so_far.flags = flags_where_there(spot)?,
            LayerWay::Kind => so_far.kind = octet_where_there(spot, 255)?,
            LayerWay::Code => so_far.code = octet_where_there(spot, 255)?,
            LayerWay::Refused => no_direction(spot)?,
        }
        Ok(())
    }
}

/// Nothing is asked of the header.
#[tactic(auto)]
fn no_layer_tests() -> LayerTests
    ensures { result ≡ record { source = port.Any; destination = port.Any; begun = None; flags = None; kind = None; code = None } }
{
    LayerTests {
        source: PortTest::Any,
        destination: PortTest::Any,
        begun: None,
        flags: None,
        kind: None,
        code: None,
    }
}

/// The layer that asks this of a header.
#[tactic(auto, unfolding(crate::specs::Containers::layer_of))]
fn layer_of(kind: LayerKind, tests: LayerTests) -> Layer
    ensures { result ≡ spec.layer_of kind tests }
{
    match kind {
        LayerKind::Tcp => Layer::Tcp {
            source: tests.source,
            destination: tests.destination,
            begun: tests.begun,
            flags: tests.flags,
        },
        LayerKind::Udp => Layer::Udp {
            source: tests.source,
            destination: tests.destination,
        },
        LayerKind::Icmp => Layer::Icmp {
            kind: tests.kind,
            code: tests.code,
        },
    }
}

/// What `tcp`, `udp` or `icmp` asks (RFC 8519, 4.2; RFC 8520, 4.8), where it is there.
#[tactic(auto, unfolding(crate::specs::Containers::layer_at), using(mud_base::proofs::Readings::answer_bind, mud_base::proofs::Readings::answer_done))]
pub(crate) fn layer_at(spot: Spot<'_>, kind: LayerKind) -> Result<Option<Layer>, FileFault>
    ensures { Gives (λ l. l) result (spec.layer_at kind spot.entry.path.now spot.entry.member (view spot.entry.object.now)) }
{
    match read_container(spot, layer_rows(kind), no_layer_tests())? {
        None => Ok(None),
        Some(tests) => Ok(Some(layer_of(kind, tests))),
    }
}
