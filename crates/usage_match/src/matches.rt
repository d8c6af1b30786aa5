//! What the `matches` of an entry test (RFC 8519, 4.2; RFC 8520, 4).
ghost use Rattle.std.specs.Prelude.{◌≡◌, ◌++◌, IfOk, OnOk};
ghost use Rattle.std.specs.Option.{option_to_list};
ghost use Rattle.serde_json.specs.View.{view};
ghost use Rattle.mud_base.specs.Readings.{Gives};
ghost use Rattle.usage_match.specs.Matches as spec;
ghost use Rattle.acl_model.specs.declared.entry.Layer.TheVariants as layer;
ghost use Rattle.usage_match.specs.Containers.{no_ip_tests, no_mud_tests};

use crate::containers::{ip_at, layer_at, mud_at, no_ip_tests, no_mud_tests};
use crate::entry_tests::{IpTests, ListType, MudTests, Tests};
use crate::ports::stands;
use crate::ways::{LayerKind, MatchTests, MatchWay};
use acl_model::{Layer, Selector};
use mud_base::{Bytes, Direction, Listed, Memory, Prefix};
use mud_url::MudUrl;
use serde_json::Value;
use std::alloc::Global;
use usage_walk::kinds::object_where_there;
use usage_walk::others::all_known;
use usage_walk::path::{refuse_here_where, refuse_where, under};
use usage_walk::table::read_rows;
use usage_walk::{FileFault, Member, Reads, Row, Rule, Spot};

/// Adds a selector at the end, where there is one.
fn add(selectors: &mut Listed<Selector>, selector: Option<Selector>) -> Result<(), Memory>
    ensures { OnOk result (selectors.new ≡ selectors.old ++ option_to_list selector) }
{
    match selector {
        None => Ok(()),
        Some(selector) => selectors.push(selector),
    }
}

/// The selector where it holds.
fn where_true(holds: bool, selector: Selector) -> Option<Selector>
    ensures { result ≡ spec.where_true holds selector }
{
    if holds { Some(selector) } else { None }
}

/// Adds the selectors that addresses of other Things meet.
#[tactic(auto, unfolding(crate::specs::Matches::thing_selectors))]
fn add_of_things(
    selectors: &mut Listed<Selector>,
    manufacturer: Option<Bytes>,
    same_manufacturer: bool,
    model: Option<MudUrl>,
) -> Result<(), Memory>
    ensures { OnOk result (selectors.new ≡ selectors.old ++ spec.thing_selectors manufacturer same_manufacturer model) }
{
    add(selectors, manufacturer.map(Selector::Manufacturer))?;
    add(
        selectors,
        where_true(same_manufacturer, Selector::SameManufacturer),
    )?;
    add(selectors, model.map(Selector::Model))
}

/// Adds the selectors that addresses meet by what the operator says.
#[tactic(auto, unfolding(crate::specs::Matches::operator_selectors))]
fn add_of_operator(
    selectors: &mut Listed<Selector>,
    local_networks: bool,
    controller: Option<Bytes>,
    my_controller: bool,
) -> Result<(), Memory>
    ensures { OnOk result (selectors.new ≡ selectors.old ++ spec.operator_selectors local_networks controller my_controller) }
{
    add(
        selectors,
        where_true(local_networks, Selector::LocalNetworks),
    )?;
    add(selectors, controller.map(Selector::Controller))?;
    add(selectors, where_true(my_controller, Selector::MyController))
}

/// Adds what `ietf-mud:mud` asks of the peer, in the order in which its members are read.
#[tactic(auto, unfolding(crate::specs::Matches::mud_selectors))]
fn add_mud(selectors: &mut Listed<Selector>, mud: MudTests) -> Result<(), Memory>
    ensures { OnOk result (selectors.new ≡ selectors.old ++ spec.mud_selectors mud) }
{
    add_of_things(
        selectors,
        mud.manufacturer,
        mud.same_manufacturer,
        mud.model,
    )?;
    add_of_operator(
        selectors,
        mud.local_networks,
        mud.controller,
        mud.my_controller,
    )
}

/// The network of the Thing's own side of the packet: its source where the Thing sends.
#[tactic(auto, unfolding(crate::specs::Matches::own_network))]
fn own_network(side: Direction, ip: &IpTests) -> Option<Prefix>
    ensures { result ≡ spec.own_network side ip.now }
{
    match side {
        Direction::From => ip.source,
        Direction::To => ip.destination,
    }
}

/// The network of the peer's side of the packet: its destination where the Thing sends.
#[tactic(auto, unfolding(crate::specs::Matches::peer_network))]
fn peer_network(side: Direction, ip: &IpTests) -> Option<Prefix>
    ensures { result ≡ spec.peer_network side ip.now }
{
    match side {
        Direction::From => ip.destination,
        Direction::To => ip.source,
    }
}

/// The DNS name of the peer's side of the packet.
#[tactic(auto, unfolding(crate::specs::Matches::peer_name))]
fn peer_name(side: Direction, ip: IpTests) -> Option<Bytes>
    ensures { result ≡ spec.peer_name side ip }
{
    match side {
        Direction::From => ip.destination_name,
        Direction::To => ip.source_name,
    }
}

/// Adds what `ipv4` or `ipv6` asks of the peer: its network, and then its name.
#[tactic(auto, unfolding(crate::specs::Matches::ip_selectors))]
fn add_ip(selectors: &mut Listed<Selector>, side: Direction, ip: IpTests) -> Result<(), Memory>
    ensures { OnOk result (selectors.new ≡ selectors.old ++ spec.ip_selectors side ip) }
{
    add(selectors, peer_network(side, &ip).map(Selector::Network))?;
    add(selectors, peer_name(side, ip).map(Selector::Name))
}

/// What the containers ask together, in a list of a direction.
#[tactic(auto, unfolding(crate::specs::Matches::tests_of))]
fn tests_of(
    alloc: Global,
    side: Direction,
    mud: MudTests,
    ip: IpTests,
    layer: Layer,
) -> Result<Tests, Memory>
    ensures { IfOk result (λ t. t ≡ spec.tests_of side mud ip layer) }
{
    let own = own_network(side, &ip);
    let protocol = ip.protocol;
    let dscp = ip.dscp;
    let ecn = ip.ecn;
    let length = ip.length;
    let ttl = ip.ttl;
    let mut selectors = Listed::new(alloc);
    add_mud(&mut selectors, mud)?;
    add_ip(&mut selectors, side, ip)?;
    Ok(Tests {
        selectors,
        own,
        protocol,
        dscp,
        ecn,
        length,
        ttl,
        layer,
    })
}

/// Nothing is tested.
#[tactic(auto, unfolding(crate::specs::Matches::no_tests))]
fn no_tests(alloc: Global) -> Tests
    ensures { result ≡ spec.no_tests }
{
    Tests {
        selectors: Listed::new(alloc),
        own: None,
        protocol: None,
        dscp: None,
        ecn: None,
        length: None,
        ttl: None,
        layer: Layer::Any,
    }
}

/// The container of the IP version of a list.
#[tactic(auto, unfolding(crate::specs::Matches::ip_member))]
fn ip_member(list_type: ListType) -> Member
    ensures { result ≡ spec.ip_member list_type }
{
    match list_type {
        ListType::Ipv4 => Member::Ipv4,
        ListType::Ipv6 => Member::Ipv6,
    }
}

/// The container of the other IP version.
#[tactic(auto, unfolding(crate::specs::Matches::other_ip_member))]
fn other_ip_member(list_type: ListType) -> Member
    ensures { result ≡ spec.other_ip_member list_type }
{
    match list_type {
        ListType::Ipv4 => Member::Ipv6,
        ListType::Ipv6 => Member::Ipv4,
    }
}

/// Whether more than one of `tcp`, `udp` and `icmp` stands.
#[tactic(auto, unfolding(crate::specs::Matches::has_two_layers))]
fn has_two_layers(matches: &Value) -> bool
    ensures { result ≡ spec.has_two_layers (view matches.now) }
{
    let tcp = stands(matches, Member::Tcp);
    let udp = stands(matches, Member::Udp);
    let icmp = stands(matches, Member::Icmp);
    (tcp && udp) || (tcp && icmp) || (udp && icmp)
}

/// The table of `matches`, in a list of this type that is read for this direction.
#[tactic(auto, unfolding(crate::specs::Matches::match_rows))]
fn match_rows(list_type: ListType, side: Direction) -> [Row<MatchWay>; 6]
    ensures { result ≡ spec.match_rows list_type side }
{
    [
        Row::new(Member::Mud, MatchWay::Mud),
        Row::new(ip_member(list_type), MatchWay::Ip(list_type, side)),
        Row::new(other_ip_member(list_type), MatchWay::Refused),
        Row::new(Member::Tcp, MatchWay::Layer(LayerKind::Tcp)),
        Row::new(Member::Udp, MatchWay::Layer(LayerKind::Udp)),
        Row::new(Member::Icmp, MatchWay::Layer(LayerKind::Icmp)),
    ]
}

/// Refuses members inside `matches` that don't fit: unknown ones, the container of the other IP
/// version, and more than one layer.
#[tactic(auto, unfolding(crate::specs::Matches::members_fit), using(mud_base::proofs::Readings::answer_bind))]
fn members_fit(
    alloc: Global,
    list_type: ListType,
    side: Direction,
    matches: &Value,
    path: &[u8],
) -> Result<(), FileFault>
    ensures { Gives (λ _. tt) result (spec.members_fit list_type side path.now (view matches.now)) }
{
    all_known(alloc, matches, path, &match_rows(list_type, side))?;
    let other = other_ip_member(list_type);
    refuse_where(alloc, stands(matches, other), Rule::Family, path, other)?;
    refuse_here_where(alloc, has_two_layers(matches), Rule::TwoLayers, path)
}

impl Reads for MatchWay {
    ghost use Rattle.usage_match.specs.Matches.{match_ways};

    type Meaning = MatchTests;

    ghost reading = { match_ways };

    #[tactic(auto, unfolding(crate::specs::Matches::match_ways), using(mud_base::proofs::Readings::answer_bind, mud_base::proofs::Readings::answer_done))]
    fn read(self, spot: Spot<'_>, so_far: &mut MatchTests) -> Result<(), FileFault> {
        match self {
            MatchWay::Mud => so_far.mud = mud_at(spot)?,
            MatchWay::Ip(list_type, side) => so_far.ip = ip_at(spot, list_type, side)?,
            MatchWay::Refused => {}
            MatchWay::Layer(kind) => {
                let found = layer_at(spot, kind)?;
                so_far.layer = found.unwrap_or(so_far.layer);
            }
        }
        Ok(())
    }
}

/// Nothing is asked by the members of `matches`.
#[tactic(auto)]
fn no_match_tests() -> MatchTests
    ensures { result ≡ record { mud = no_mud_tests; ip = no_ip_tests; layer = layer.Any } }
{
    MatchTests {
        mud: no_mud_tests(),
        ip: no_ip_tests(),
        layer: Layer::Any,
    }
}

/// What the `matches` at this path test.
#[tactic(auto, unfolding(crate::specs::Matches::matches_of), using(mud_base::proofs::Readings::answer_bind, mud_base::proofs::Readings::answer_done))]
fn matches_of(
    alloc: Global,
    list_type: ListType,
    side: Direction,
    matches: &Value,
    path: &[u8],
) -> Result<Tests, FileFault>
    ensures { Gives (λ t. t) result (spec.matches_of list_type side path.now (view matches.now)) }
{
    members_fit(alloc, list_type, side, matches, path)?;
    let rows = match_rows(list_type, side);
    let parts = read_rows(alloc, matches, path, &rows, no_match_tests())?;
    let tests = tests_of(alloc, side, parts.mud, parts.ip, parts.layer)?;
    Ok(tests)
}

/// What an entry tests (RFC 8519, 4.2; RFC 8520, 4 and 8), or the first rule that its `matches`
/// break and where, in the order of the walk. The list that it stands in has a type, and is read for
/// what the Thing sends or for what it receives. The path is the entry's, a JSON pointer (RFC 6901).
/// Without `matches` it tests nothing.
///
/// Code points are 0 to 63, congestion marks 0 to 3, times to live, protocol numbers, ICMP types and
/// codes 0 to 255, lengths and ports 0 to 65535; named flags are their sum. Names and the hosts of
/// manufacturers come in lower case and without a trailing dot, a model as a canonical MUD URL. The
/// selectors stand in the order in which they are read.
#[tactic(auto, unfolding(crate::specs::Matches::tests_at), using(mud_base::proofs::Readings::answer_bind, mud_base::proofs::Readings::answer_done, mud_base::proofs::Readings::answer_absent, mud_base::proofs::Readings::answer_there))]
pub fn tests_at(
    alloc: Global,
    list_type: ListType,
    side: Direction,
    entry: &Value,
    path: &[u8],
) -> Result<Tests, FileFault>
    ensures { Gives (λ t. t) result (spec.tests_at list_type side path.now (view entry.now)) }
{
    match object_where_there(alloc, Some(entry), path, Member::Matches)? {
        None => Ok(no_tests(alloc)),
        Some(matches) => {
            let path = under(alloc, path, Member::Matches)?;
            matches_of(alloc, list_type, side, matches, path.octets())
        }
    }
}
