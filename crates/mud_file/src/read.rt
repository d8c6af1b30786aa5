//! A usage file, as it is read (RFC 8520).
ghost use Rattle.std.specs.Prelude.{◌≡◌, option_map, IfOk};
ghost use Rattle.serde_json.specs.View.{view};
ghost use Rattle.usage_walk.specs.Json as json;
ghost use Rattle.mud_base.specs.Readings.{Answers, Gives};
ghost use Rattle.usage_walk.specs.Elements.{elements_view};
ghost use Rattle.mud_file.specs.Entries.{entries_of};
ghost use Rattle.mud_file.specs.File as spec;

use crate::head::head;
use crate::lists::entries_of;
use crate::usage_file::{Head, UsageFile};
use acl_model::{Entry, Policy};
use mud_base::{Bytes, Direction, Listed, Memory};
use serde_json::Value;
use std::alloc::Global;
use usage_walk::kinds::{list_where_there, object_at, object_here, object_where_there};
use usage_walk::named::elements_of;
use usage_walk::path::{refused, under};
use usage_walk::{Elements, FileFault, Member, Rule};

/// The most octets of a usage file.
const MOST_OCTETS: usize = 262_144;

/// The objects with names in the list that this member is, of the object at this path.
#[tactic(auto, unfolding(crate::specs::File::named_in), using(mud_base::proofs::Readings::answer_bind))]
fn named_in<'a>(
    alloc: Global,
    object: Option<&'a Value>,
    path: &[u8],
    member: Member,
) -> Result<Elements<'a>, FileFault>
    ensures { Gives elements_view result (spec.named_in path.now member (option_map (λ o. view o.now) object.entry)) }
{
    let list = list_where_there(alloc, object, path, member)?;
    let path = under(alloc, path, member)?;
    elements_of(alloc, list, path.octets())
}

/// The member that is the policy of a direction.
#[tactic(auto, unfolding(crate::specs::File::policy_member))]
fn policy_member(side: Direction) -> Member
    ensures { result ≡ spec.policy_member side }
{
    match side {
        Direction::From => Member::FromDevicePolicy,
        Direction::To => Member::ToDevicePolicy,
    }
}

/// Where the names of the policy stand, in the object at this path.
#[tactic(auto, unfolding(crate::specs::File::names_path))]
fn names_path(alloc: Global, side: Direction, path: &[u8]) -> Result<Bytes, Memory>
    ensures { IfOk result (λ found. found ≡ spec.names_path side path.now) }
{
    let policy = under(alloc, path, policy_member(side))?;
    let lists = under(alloc, policy.octets(), Member::AccessLists)?;
    under(alloc, lists.octets(), Member::AccessList)
}

/// The names of access lists in the policy at this path.
#[tactic(auto, unfolding(crate::specs::File::policy_names), using(mud_base::proofs::Readings::answer_bind))]
fn policy_names<'a>(
    alloc: Global,
    policy: Option<&'a Value>,
    path: &[u8],
) -> Result<Elements<'a>, FileFault>
    ensures { Gives elements_view result (spec.policy_names path.now (option_map (λ o. view o.now) policy.entry)) }
{
    let lists = object_where_there(alloc, policy, path, Member::AccessLists)?;
    let path = under(alloc, path, Member::AccessLists)?;
    named_in(alloc, lists, path.octets(), Member::AccessList)
}

/// The names of access lists in the policy of a direction, in the object at this path.
#[tactic(auto, unfolding(crate::specs::File::names_at), using(mud_base::proofs::Readings::answer_bind))]
fn names<'a>(
    alloc: Global,
    side: Direction,
    mud: &'a Value,
    path: &[u8],
) -> Result<Elements<'a>, FileFault>
    ensures { Gives elements_view result (spec.names_at side path.now (view mud.now)) }
{
    let policy = object_where_there(alloc, Some(mud), path, policy_member(side))?;
    let path = under(alloc, path, policy_member(side))?;
    policy_names(alloc, policy, path.octets())
}

/// The access lists of a file, whether a policy names them or not.
#[tactic(auto, unfolding(crate::specs::File::acls_at), using(mud_base::proofs::Readings::answer_bind))]
fn acls<'a>(alloc: Global, root: &'a Value) -> Result<Elements<'a>, FileFault>
    ensures { Gives elements_view result (spec.acls_at (view root.now)) }
{
    let acls = object_where_there(alloc, Some(root), &[], Member::Acls)?;
    let path = under(alloc, &[], Member::Acls)?;
    named_in(alloc, acls, path.octets(), Member::Acl)
}

/// The entries of a direction: those of the access lists of these names, which the policy of the
/// direction has in the object at this path.
fn entries(
    alloc: Global,
    side: Direction,
    acls: &Elements<'_>,
    names: &Elements<'_>,
    path: &[u8],
) -> Result<Listed<Entry>, FileFault>
    ensures { Gives (λ e. e) result (entries_of side (spec.names_path side path.now) (elements_view acls.now) (elements_view names.now)) }
{
    let path = names_path(alloc, side, path)?;
    entries_of(alloc, side, acls, names.as_slice(), path.octets())
}

/// The entries of both directions.
#[tactic(auto, unfolding(crate::specs::File::policy_at), using(mud_base::proofs::Readings::answer_bind, mud_base::proofs::Readings::answer_done))]
fn policy(alloc: Global, root: &Value, mud: &Value, path: &[u8]) -> Result<Policy, FileFault>
    ensures { Gives (λ p. p) result (spec.policy_at (view root.now) path.now (view mud.now)) }
{
    let from = names(alloc, Direction::From, mud, path)?;
    let to = names(alloc, Direction::To, mud, path)?;
    let acls = acls(alloc, root)?;
    let outgoing = entries(alloc, Direction::From, &acls, &from, path)?;
    match entries(alloc, Direction::To, &acls, &to, path) {
        Ok(incoming) => Ok(Policy { outgoing, incoming }),
        Err(fault) => {
            drop(outgoing);
            Err(fault)
        }
    }
}

/// The usage file with this head and these entries.
#[tactic(auto, unfolding(crate::specs::File::with_policy))]
fn with_policy(head: Head, policy: Policy) -> UsageFile
    ensures { result ≡ spec.with_policy head policy }
{
    UsageFile {
        url: head.url,
        update: head.update,
        hours: head.hours,
        supported: head.supported,
        signature: head.signature,
        extensions: head.extensions,
        policy,
    }
}

/// What the object `ietf-mud:mud` at this path means in its file.
#[tactic(auto, unfolding(crate::specs::File::mud_at), using(mud_base::proofs::Readings::answer_bind, mud_base::proofs::Readings::answer_done))]
fn mud_file(alloc: Global, root: &Value, mud: &Value, path: &[u8]) -> Result<UsageFile, FileFault>
    ensures { Gives (λ f. f) result (spec.mud_at (view root.now) path.now (view mud.now)) }
{
    let head = head(alloc, mud, path)?;
    let policy = policy(alloc, root, mud, path)?;
    Ok(with_policy(head, policy))
}

/// What the JSON value of a file means.
#[tactic(auto, unfolding(crate::specs::File::file_at), using(mud_base::proofs::Readings::answer_bind))]
fn file(alloc: Global, value: &Value) -> Result<UsageFile, FileFault>
    ensures { Gives (λ f. f) result (spec.file_at (view value.now)) }
{
    let root = object_here(alloc, value, &[])?;
    let mud = object_at(alloc, root, &[], Member::Mud)?;
    let path = under(alloc, &[], Member::Mud)?;
    mud_file(alloc, root, mud, path.octets())
}

/// The JSON value of these octets (RFC 8259).
#[tactic(auto, using(usage_walk::proofs::JsonValues::value_some, usage_walk::proofs::JsonValues::value_none))]
fn value_in(alloc: Global, octets: &[u8]) -> Result<Value, FileFault>
    ensures { Answers view result (spec.as_json (json.value_in octets.now)) }
{
    match Value::from_slice(alloc, octets) {
        Ok(value) => Ok(value),
        Err(error) if error.is_memory() => Err(FileFault::Memory),
        Err(_) => Err(refused(Rule::Json, Bytes::empty(alloc))),
    }
}

/// The usage file that these octets are, or the first rule that they break and where: at most
/// 262,144 octets of JSON (RFC 8259) with what RFC 8520 and RFC 8519 ask of a MUD file. The file
/// isn't kept: the answer has copies of the texts that it holds.
#[tactic(auto, unfolding(crate::specs::File::file_of))]
pub fn read_usage(alloc: Global, octets: &[u8]) -> Result<UsageFile, FileFault>
    ensures { Answers (λ f. f) result (spec.file_of octets.now) }
{
    if octets.len() > MOST_OCTETS {
        return Err(refused(Rule::TooLong, Bytes::empty(alloc)));
    }
    let value = value_in(alloc, octets)?;
    file(alloc, &value)
}
