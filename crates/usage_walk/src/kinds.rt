//! Values of one JSON kind, and members of an object.
ghost use Rattle.std.specs.Prelude.{◌≡◌, map, option_map, [], false};
ghost use Rattle.serde_json.specs.View.{view};
ghost use Rattle.mud_base.specs.Readings.{Gives, wanted};
ghost use Rattle.usage_walk.specs.Reading.{under, fault_at};
ghost use Rattle.usage_walk.specs.Kinds as spec;
ghost use Rattle.std.specs.Option.{option_map_or};
ghost use Rattle.usage_walk.specs.declared.fault.Rule.TheVariants.{WrongKind};
ghost use Rattle.serde_json.specs.Find.{as_bool};

use crate::fault::{FileFault, Rule};
use crate::member::Member;
use crate::path::{refusal, refusal_here};
use serde_json::Value;
use std::alloc::Global;

/// The member that has to be there, of the object at this path.
#[tactic(auto, unfolding(crate::specs::Kinds::member_at), using(mud_base::proofs::Readings::answer_wanted, mud_base::proofs::Readings::answer_unwanted))]
pub(crate) fn member_at<'a>(
    alloc: Global,
    object: &'a Value,
    path: &[u8],
    member: Member,
) -> Result<&'a Value, FileFault>
    ensures { Gives (λ v. view v.now) result (spec.member_at path.now member (view object.now)) }
{
    match object.get(member.name()) {
        Some(value) => Ok(value),
        None => Err(refusal(alloc, Rule::Missing, path, member)),
    }
}

/// The text that a member is.
#[tactic(auto, unfolding(crate::specs::Kinds::text_of), using(mud_base::proofs::Readings::answer_wanted, mud_base::proofs::Readings::answer_unwanted))]
fn text_of<'a>(
    alloc: Global,
    value: &'a Value,
    path: &[u8],
    member: Member,
) -> Result<&'a str, FileFault>
    ensures { Gives (λ t. t.now) result (spec.text_of (under path.now member) (view value.now)) }
{
    match value.as_str() {
        Some(text) => Ok(text),
        None => Err(refusal(alloc, Rule::WrongKind, path, member)),
    }
}

/// A text that has to be there, in the object at this path.
#[tactic(auto, unfolding(crate::specs::Kinds::text_at), using(mud_base::proofs::Readings::answer_bind))]
pub fn text_at<'a>(
    alloc: Global,
    object: &'a Value,
    path: &[u8],
    member: Member,
) -> Result<&'a str, FileFault>
    ensures { Gives (λ t. t.now) result (spec.text_at path.now member (view object.now)) }
{
    let value = member_at(alloc, object, path, member)?;
    text_of(alloc, value, path, member)
}

/// The whole number that a member is.
#[tactic(auto, unfolding(crate::specs::Kinds::number_of), using(mud_base::proofs::Readings::answer_wanted, mud_base::proofs::Readings::answer_unwanted))]
fn number_of(alloc: Global, value: &Value, path: &[u8], member: Member) -> Result<u64, FileFault>
    ensures { Gives (λ n. n) result (spec.number_of (under path.now member) (view value.now)) }
{
    match value.as_u64() {
        Some(number) => Ok(number),
        None => Err(refusal(alloc, Rule::WrongKind, path, member)),
    }
}

/// A whole number that has to be there, in the object at this path.
#[tactic(auto, unfolding(crate::specs::Kinds::number_at), using(mud_base::proofs::Readings::answer_bind))]
pub fn number_at(
    alloc: Global,
    object: &Value,
    path: &[u8],
    member: Member,
) -> Result<u64, FileFault>
    ensures { Gives (λ n. n) result (spec.number_at path.now member (view object.now)) }
{
    let value = member_at(alloc, object, path, member)?;
    number_of(alloc, value, path, member)
}

/// The truth value that a member is.
#[tactic(auto, using(mud_base::proofs::Readings::answer_wanted, mud_base::proofs::Readings::answer_unwanted))]
fn truth_of(alloc: Global, value: &Value, path: &[u8], member: Member) -> Result<bool, FileFault>
    ensures { Gives (λ b. b) result (wanted false (fault_at WrongKind (under path.now member)) (as_bool (view value.now))) }
{
    match value.as_bool() {
        Some(truth) => Ok(truth),
        None => Err(refusal(alloc, Rule::WrongKind, path, member)),
    }
}

/// A truth value that has to be there, in the object at this path.
#[tactic(auto, unfolding(crate::specs::Kinds::truth_at), using(mud_base::proofs::Readings::answer_bind))]
pub fn truth_at(
    alloc: Global,
    object: &Value,
    path: &[u8],
    member: Member,
) -> Result<bool, FileFault>
    ensures { Gives (λ b. b) result (spec.truth_at path.now member (view object.now)) }
{
    let value = member_at(alloc, object, path, member)?;
    truth_of(alloc, value, path, member)
}

/// The object that a member is.
#[tactic(auto, unfolding(crate::specs::Kinds::object_of), using(mud_base::proofs::Readings::answer_wanted, mud_base::proofs::Readings::answer_unwanted))]
fn object_of<'a>(
    alloc: Global,
    value: &'a Value,
    path: &[u8],
    member: Member,
) -> Result<&'a Value, FileFault>
    ensures { Gives (λ v. view v.now) result (spec.object_of (under path.now member) (view value.now)) }
{
    if value.is_object() {
        Ok(value)
    } else {
        Err(refusal(alloc, Rule::WrongKind, path, member))
    }
}

/// An object that has to be there, in the object at this path.
#[tactic(auto, unfolding(crate::specs::Kinds::object_at), using(mud_base::proofs::Readings::answer_bind))]
pub fn object_at<'a>(
    alloc: Global,
    object: &'a Value,
    path: &[u8],
    member: Member,
) -> Result<&'a Value, FileFault>
    ensures { Gives (λ v. view v.now) result (spec.object_at path.now member (view object.now)) }
{
    let value = member_at(alloc, object, path, member)?;
    object_of(alloc, value, path, member)
}

/// The object that stands at this path itself.
#[tactic(auto, unfolding(crate::specs::Kinds::object_of), using(mud_base::proofs::Readings::answer_wanted, mud_base::proofs::Readings::answer_unwanted))]
pub fn object_here<'a>(alloc: Global, value: &'a Value, path: &[u8]) -> Result<&'a Value, FileFault>
    ensures { Gives (λ v. view v.now) result (spec.object_of path.now (view value.now)) }
{
    if value.is_object() {
        Ok(value)
    } else {
        Err(refusal_here(alloc, Rule::WrongKind, path))
    }
}

/// The member of an object, where both are there.
#[tactic(auto, unfolding(crate::specs::Kinds::inside))]
pub fn inside<'a>(object: Option<&'a Value>, member: Member) -> Option<&'a Value>
    ensures { option_map (λ v. view v.now) result ≡ spec.inside member (option_map (λ o. view o.now) object.entry) }
{
    object?.get(member.name())
}

/// A text, where it is there, in the object at this path.
#[tactic(auto, unfolding(crate::specs::Kinds::text_where_there), using(mud_base::proofs::Readings::answer_absent, mud_base::proofs::Readings::answer_there))]
pub fn text_where_there<'a>(
    alloc: Global,
    object: Option<&'a Value>,
    path: &[u8],
    member: Member,
) -> Result<Option<&'a str>, FileFault>
    ensures { Gives (option_map (λ t. t.now)) result (spec.text_where_there path.now member (option_map (λ o. view o.now) object.entry)) }
{
    match inside(object, member) {
        None => Ok(None),
        Some(value) => Ok(Some(text_of(alloc, value, path, member)?)),
    }
}

/// A whole number, where it is there, in the object at this path.
#[tactic(auto, unfolding(crate::specs::Kinds::number_where_there), using(mud_base::proofs::Readings::answer_absent, mud_base::proofs::Readings::answer_there))]
pub fn number_where_there(
    alloc: Global,
    object: Option<&Value>,
    path: &[u8],
    member: Member,
) -> Result<Option<u64>, FileFault>
    ensures { Gives (λ n. n) result (spec.number_where_there path.now member (option_map (λ o. view o.now) object.entry)) }
{
    match inside(object, member) {
        None => Ok(None),
        Some(value) => Ok(Some(number_of(alloc, value, path, member)?)),
    }
}

/// An object, where it is there, in the object at this path.
#[tactic(auto, unfolding(crate::specs::Kinds::object_where_there), using(mud_base::proofs::Readings::answer_absent, mud_base::proofs::Readings::answer_there))]
pub fn object_where_there<'a>(
    alloc: Global,
    object: Option<&'a Value>,
    path: &[u8],
    member: Member,
) -> Result<Option<&'a Value>, FileFault>
    ensures { Gives (option_map (λ v. view v.now)) result (spec.object_where_there path.now member (option_map (λ o. view o.now) object.entry)) }
{
    match inside(object, member) {
        None => Ok(None),
        Some(value) => Ok(Some(object_of(alloc, value, path, member)?)),
    }
}

/// The elements of the list that a member is.
#[tactic(auto, using(mud_base::proofs::Readings::answer_wanted, mud_base::proofs::Readings::answer_unwanted, crate::proofs::Items::list_in_some))]
fn list_of<'a>(
    alloc: Global,
    value: &'a Value,
    path: &[u8],
    member: Member,
) -> Result<&'a [Value], FileFault>
    ensures { Gives (λ l. map view l.now) result (wanted [] (fault_at WrongKind (under path.now member)) (spec.list_in (view value.now))) }
{
    match value.as_array() {
        Some(list) => Ok(list.as_slice()),
        None => Err(refusal(alloc, Rule::WrongKind, path, member)),
    }
}

/// The elements of a list in the object at this path. An absent list has none.
#[tactic(auto, unfolding(crate::specs::Kinds::list_where_there), using(mud_base::proofs::Readings::answer_bind, mud_base::proofs::Readings::answer_done, mud_base::proofs::Readings::answer_absent, mud_base::proofs::Readings::answer_there))]
pub fn list_where_there<'a>(
    alloc: Global,
    object: Option<&'a Value>,
    path: &[u8],
    member: Member,
) -> Result<&'a [Value], FileFault>
    ensures { Gives (λ l. map view l.now) result (spec.list_where_there path.now member (option_map (λ o. view o.now) object.entry)) }
{
    match inside(object, member) {
        None => Ok(&[]),
        Some(value) => list_of(alloc, value, path, member),
    }
}

/// Whether the elements are one `null` alone.
fn is_only_null(list: &[Value]) -> bool
    ensures { result ≡ spec.is_only_null (map view list.now) }
{
    match list {
        [] => false,
        [only] => only.is_null(),
        [_, _, ..] => false,
    }
}

/// Whether a value is an empty leaf: `[null]` (RFC 7951, 6.9) or `null`.
#[tactic(auto, using(crate::proofs::Items::list_in_some))]
fn is_empty_leaf(value: &Value) -> bool
    ensures { result ≡ option_map_or spec.is_only_null (spec.list_in (view value.now)) (spec.is_null (view value.now)) }
{
    match value.as_array() {
        Some(list) => is_only_null(list.as_slice()),
        None => value.is_null(),
    }
}

/// The empty leaf that a member is.
#[tactic(auto, unfolding(crate::specs::Kinds::leaf_of), using(mud_base::proofs::Readings::answer_passed, mud_base::proofs::Readings::answer_refused))]
fn leaf_of(alloc: Global, value: &Value, path: &[u8], member: Member) -> Result<(), FileFault>
    ensures { Gives (λ _. tt) result (spec.leaf_of (under path.now member) (view value.now)) }
{
    if is_empty_leaf(value) {
        Ok(())
    } else {
        Err(refusal(alloc, Rule::WrongKind, path, member))
    }
}

/// Whether an empty leaf is there, in the object at this path.
#[tactic(auto, unfolding(crate::specs::Kinds::leaf_where_there), using(mud_base::proofs::Readings::answer_bind, mud_base::proofs::Readings::answer_done, mud_base::proofs::Readings::answer_absent, mud_base::proofs::Readings::answer_there))]
pub fn leaf_where_there(
    alloc: Global,
    object: Option<&Value>,
    path: &[u8],
    member: Member,
) -> Result<bool, FileFault>
    ensures { Gives (λ b. b) result (spec.leaf_where_there path.now member (option_map (λ o. view o.now) object.entry)) }
{
    match inside(object, member) {
        None => Ok(false),
        Some(value) => {
            leaf_of(alloc, value, path, member)?;
            Ok(true)
        }
    }
}

/// The text that a value at this path is.
#[tactic(auto, unfolding(crate::specs::Kinds::text_of), using(mud_base::proofs::Readings::answer_wanted, mud_base::proofs::Readings::answer_unwanted))]
pub fn text_here<'a>(alloc: Global, value: &'a Value, path: &[u8]) -> Result<&'a str, FileFault>
    ensures { Gives (λ t. t.now) result (spec.text_of path.now (view value.now)) }
{
    match value.as_str() {
        Some(text) => Ok(text),
        None => Err(refusal_here(alloc, Rule::WrongKind, path)),
    }
}
