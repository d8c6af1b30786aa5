//! The tests of the transport header.
ghost use Rattle.std.specs.Prelude.{◌≡◌, ◌++◌, codes, OnOk, IfOk, option_map};
ghost use Rattle.rule_export.specs.Objects.{member_text, next_first};
ghost use Rattle.rule_export.specs.Tests as spec;
ghost use Rattle.rule_export.specs.Flags.{flags_text};
ghost use Rattle.acl_model.specs.declared.entry.PortTest.TheVariants as port;

use crate::flags::append_flags;
use crate::members::{append_name, append_number, append_octet};
use acl_model::{Layer, PortTest};
use mud_base::{Bytes, Direction, Memory};
use text_values::append_decimal;

/// Adds the test of a port by an operator.
#[tactic(auto, unfolding(crate::specs::Tests::operator_text))]
fn append_operator(line: &mut Bytes, operator: &[u8], number: u16) -> Result<(), Memory>
    ensures { OnOk result (line.new ≡ line.old ++ spec.operator_text operator.now number) }
{
    line.append(b"{\"operator\":\"")?;
    line.append(operator)?;
    line.append(b"\",\"port\":")?;
    append_decimal(line, u64::from(number))?;
    line.append(b"}")
}

/// Adds the test of a port by its two bounds.
fn append_range(line: &mut Bytes, lower: u16, upper: u16) -> Result<(), Memory>
    ensures { OnOk result (line.new ≡ line.old ++ (spec.test_text (port.Within lower upper))) }
{
    line.append(b"{")?;
    let none = append_number(line, true, b"lower-port", Some(lower))?;
    append_number(line, none, b"upper-port", Some(upper))?;
    line.append(b"}")?;
    Ok(())
}

/// Whether every port passes.
#[tactic(auto, unfolding(crate::specs::Tests::is_any))]
fn is_any(test: PortTest) -> bool
    ensures { result ≡ spec.is_any test }
{
    match test {
        PortTest::Any => true,
        PortTest::Eq(_)
        | PortTest::Neq(_)
        | PortTest::Lte(_)
        | PortTest::Gte(_)
        | PortTest::Within(_, _) => false,
    }
}

/// Adds the test of a port; nothing where every port passes.
#[tactic(auto, unfolding(crate::specs::Tests::test_text))]
fn append_test(line: &mut Bytes, test: PortTest) -> Result<(), Memory>
    ensures { OnOk result (line.new ≡ line.old ++ spec.test_text test) }
{
    match test {
        PortTest::Any => Ok(()),
        PortTest::Eq(number) => append_operator(line, b"eq", number),
        PortTest::Neq(number) => append_operator(line, b"neq", number),
        PortTest::Lte(number) => append_operator(line, b"lte", number),
        PortTest::Gte(number) => append_operator(line, b"gte", number),
        PortTest::Within(lower, upper) => append_range(line, lower, upper),
    }
}

/// Adds the member of a port's test; every port passes where it is left out. The answer says whether
/// the next member is the first.
#[tactic(auto, unfolding(crate::specs::Objects::member_text, crate::specs::Objects::next_first, crate::specs::Tests::port_value))]
fn append_port(line: &mut Bytes, first: bool, name: &[u8], test: PortTest) -> Result<bool, Memory>
    ensures text { OnOk result (line.new ≡ line.old ++ member_text first (name.now, spec.port_value test)) }
    ensures next { IfOk result (λ next. next ≡ next_first first (name.now, spec.port_value test)) }
{
    if is_any(test) {
        return Ok(first);
    }
    append_name(line, first, name)?;
    append_test(line, test)?;
    Ok(false)
}

/// Adds the member of the side that is to have begun the connection, where one is named. The answer
/// says whether the next member is the first.
#[tactic(auto, unfolding(crate::specs::Objects::member_text, crate::specs::Objects::next_first, crate::specs::Tests::beginner_value))]
fn append_beginner(line: &mut Bytes, first: bool, begun: Option<Direction>) -> Result<bool, Memory>
    ensures text { OnOk result (line.new ≡ line.old ++ member_text first (codes "ietf-mud:direction-initiated", spec.beginner_value begun)) }
    ensures next { IfOk result (λ next. next ≡ next_first first (codes "ietf-mud:direction-initiated", spec.beginner_value begun)) }
{
    let Some(side) = begun else {
        return Ok(first);
    };
    append_name(line, first, b"ietf-mud:direction-initiated")?;
    match side {
        Direction::From => line.append(b"\"from-device\"")?,
        Direction::To => line.append(b"\"to-device\"")?,
    }
    Ok(false)
}

/// Adds the member of the octet of flags, where one is named. The answer says whether the next member
/// is the first.
#[tactic(auto, unfolding(crate::specs::Objects::member_text, crate::specs::Objects::next_first))]
fn append_flags_member(line: &mut Bytes, first: bool, flags: Option<u8>) -> Result<bool, Memory>
    ensures text { OnOk result (line.new ≡ line.old ++ member_text first (codes "flags", (option_map flags_text flags))) }
    ensures next { IfOk result (λ next. next ≡ next_first first (codes "flags", (option_map flags_text flags))) }
{
    let Some(octet) = flags else {
        return Ok(first);
    };
    append_name(line, first, b"flags")?;
    append_flags(line, octet)?;
    Ok(false)
}

/// Adds the member of the ICMP header's tests, where that header is asked for. The answer says whether
/// the next member is the first.
#[tactic(auto, unfolding(crate::specs::Objects::member_text, crate::specs::Objects::next_first, crate::specs::Objects::object, crate::specs::Objects::members_text, crate::specs::Tests::icmp_value))]
pub(crate) fn append_icmp(line: &mut Bytes, first: bool, layer: Layer) -> Result<bool, Memory>
    ensures text { OnOk result (line.new ≡ line.old ++ member_text first (codes "icmp", spec.icmp_value layer)) }
    ensures next { IfOk result (λ next. next ≡ next_first first (codes "icmp", spec.icmp_value layer)) }
{
    let Layer::Icmp { kind, code } = layer else {
        return Ok(first);
    };
    append_name(line, first, b"icmp")?;
    line.append(b"{")?;
    let none = append_octet(line, true, b"code", code)?;
    append_octet(line, none, b"type", kind)?;
    line.append(b"}")?;
    Ok(false)
}

/// Adds the member of the TCP header's tests, where that header is asked for. The answer says whether
/// the next member is the first.
#[tactic(auto, unfolding(crate::specs::Objects::member_text, crate::specs::Objects::next_first, crate::specs::Tests::tcp_value))]
pub(crate) fn append_tcp(line: &mut Bytes, first: bool, layer: Layer) -> Result<bool, Memory>
    ensures text { OnOk result (line.new ≡ line.old ++ member_text first (codes "tcp", spec.tcp_value layer)) }
    ensures next { IfOk result (λ next. next ≡ next_first first (codes "tcp", spec.tcp_value layer)) }
{
    let Layer::Tcp {
        source,
        destination,
        begun,
        flags,
    } = layer
    else {
        return Ok(first);
    };
    append_name(line, first, b"tcp")?;
    line.append(b"{")?;
    let none = append_port(line, true, b"destination-port", destination)?;
    let none = append_flags_member(line, none, flags)?;
    let none = append_beginner(line, none, begun)?;
    append_port(line, none, b"source-port", source)?;
    line.append(b"}")?;
    Ok(false)
}

/// Adds the member of the UDP header's tests, where that header is asked for. The answer says whether
/// the next member is the first.
#[tactic(auto, unfolding(crate::specs::Objects::member_text, crate::specs::Objects::next_first, crate::specs::Tests::udp_value))]
pub(crate) fn append_udp(line: &mut Bytes, first: bool, layer: Layer) -> Result<bool, Memory>
    ensures text { OnOk result (line.new ≡ line.old ++ member_text first (codes "udp", spec.udp_value layer)) }
    ensures next { IfOk result (λ next. next ≡ next_first first (codes "udp", spec.udp_value layer)) }
{
    let Layer::Udp {
        source,
        destination,
    } = layer
    else {
        return Ok(first);
    };
    append_name(line, first, b"udp")?;
    line.append(b"{")?;
    let none = append_port(line, true, b"destination-port", destination)?;
    append_port(line, none, b"source-port", source)?;
    line.append(b"}")?;
    Ok(false)
}
