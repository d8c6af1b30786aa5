//! The tests of ports (RFC 8519, 4.2): one port with an operator, or a range.
ghost use Rattle.std.specs.Prelude.{◌≡◌, ◌∷◌, [], ◌||◌};
ghost use Rattle.serde_json.specs.View.{view};
ghost use Rattle.mud_base.specs.Readings.{Gives};
ghost use Rattle.usage_match.specs.Ports as spec;
ghost use Rattle.usage_walk.specs.declared.member.Member.TheVariants as members;
ghost use Rattle.usage_walk.specs.Tables.{row};

use crate::entry_tests::Operator;
use crate::texts::{as_two_octets, operator_where_there};
use acl_model::PortTest;
use serde_json::Value;
use std::alloc::Global;
use usage_walk::kinds::{inside, number_at, object_where_there};
use usage_walk::others::all_known;
use usage_walk::path::{refuse_here_where, under};
use usage_walk::{FileFault, Member, Row, Rule, Spot};

/// Whether an object has the member.
#[tactic(auto, unfolding(crate::specs::Ports::stands))]
pub fn stands(object: &Value, member: Member) -> bool
    ensures { result ≡ spec.stands member (view object.now) }
{
    inside(Some(object), member).is_some()
}

/// The members of a port container: two of one port, and two of a range.
#[tactic(auto)]
fn port_rows() -> [Row<()>; 4]
    ensures { result ≡ row members.Operator tt ∷ row members.Port tt ∷ row members.LowerPort tt ∷ row members.UpperPort tt ∷ [] }
{
    [
        Row::new(Member::Operator, ()),
        Row::new(Member::Port, ()),
        Row::new(Member::LowerPort, ()),
        Row::new(Member::UpperPort, ()),
    ]
}

/// Whether a port container names a single port or an operator.
#[tactic(auto)]
fn names_single(object: &Value) -> bool
    ensures { result ≡ spec.stands members.Operator (view object.now) || spec.stands members.Port (view object.now) }
{
    stands(object, Member::Operator) || stands(object, Member::Port)
}

/// Whether a port container names an end of a range.
#[tactic(auto, unfolding(crate::specs::Ports::names_range))]
fn names_range(object: &Value) -> bool
    ensures { result ≡ spec.names_range (view object.now) }
{
    stands(object, Member::LowerPort) || stands(object, Member::UpperPort)
}

/// The ports from the lower to the upper one, which both have to be there, and in order.
#[tactic(auto, unfolding(crate::specs::Ports::range_at), using(mud_base::proofs::Readings::answer_bind, mud_base::proofs::Readings::answer_done))]
fn range_at(alloc: Global, object: &Value, path: &[u8]) -> Result<PortTest, FileFault>
    ensures { Gives (λ t. t) result (spec.range_at path.now (view object.now)) }
{
    let lower = number_at(alloc, object, path, Member::LowerPort)?;
    let upper = number_at(alloc, object, path, Member::UpperPort)?;
    let first = as_two_octets(alloc, path, Member::LowerPort, lower)?;
    let last = as_two_octets(alloc, path, Member::UpperPort, upper)?;
    refuse_here_where(alloc, last < first, Rule::PortRange, path)?;
    Ok(PortTest::Within(first, last))
}

/// The test that an operator makes with a port.
#[tactic(auto, unfolding(crate::specs::Ports::test_of))]
fn test_of(operator: Operator, port: u16) -> PortTest
    ensures { result ≡ spec.test_of operator port }
{
    match operator {
        Operator::Eq => PortTest::Eq(port),
        Operator::Neq => PortTest::Neq(port),
        Operator::Lte => PortTest::Lte(port),
        Operator::Gte => PortTest::Gte(port),
    }
}

/// The test of one port, which has to be there. An absent operator is read as `eq`.
#[tactic(auto, unfolding(crate::specs::Ports::single_at), using(mud_base::proofs::Readings::answer_bind, mud_base::proofs::Readings::answer_done))]
fn single_at(alloc: Global, object: &Value, path: &[u8]) -> Result<PortTest, FileFault>
    ensures { Gives (λ t. t) result (spec.single_at path.now (view object.now)) }
{
    let spot = Spot {
        alloc,
        object,
        path,
        member: Member::Operator,
    };
    let named = operator_where_there(spot)?;
    let number = number_at(alloc, object, path, Member::Port)?;
    let port = as_two_octets(alloc, path, Member::Port, number)?;
    Ok(test_of(named.unwrap_or(Operator::Eq), port))
}

/// The test of a port container, the object at this path.
#[tactic(auto, unfolding(crate::specs::Ports::port_test_of), using(mud_base::proofs::Readings::answer_bind))]
fn port_test_of(alloc: Global, object: &Value, path: &[u8]) -> Result<PortTest, FileFault>
    ensures { Gives (λ t. t) result (spec.port_test_of path.now (view object.now)) }
{
    all_known(alloc, object, path, &port_rows())?;
    let is_range = names_range(object);
    refuse_here_where(
        alloc,
        is_range && names_single(object),
        Rule::PortRange,
        path,
    )?;
    if is_range {
        range_at(alloc, object, path)
    } else {
        single_at(alloc, object, path)
    }
}

/// The test of a port container. Where there is none, every port passes.
#[tactic(auto, unfolding(crate::specs::Ports::port_where_there), using(mud_base::proofs::Readings::answer_bind, mud_base::proofs::Readings::answer_done, mud_base::proofs::Readings::answer_absent, mud_base::proofs::Readings::answer_there))]
pub(crate) fn port_where_there(spot: Spot<'_>) -> Result<PortTest, FileFault>
    ensures { Gives (λ t. t) result (spec.port_where_there spot.entry.path.now spot.entry.member (view spot.entry.object.now)) }
{
    match object_where_there(spot.alloc, Some(spot.object), spot.path, spot.member)? {
        None => Ok(PortTest::Any),
        Some(container) => {
            let path = under(spot.alloc, spot.path, spot.member)?;
            port_test_of(spot.alloc, container, path.octets())
        }
    }
}
