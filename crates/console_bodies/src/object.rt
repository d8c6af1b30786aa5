//! The object that a body is.
ghost use Rattle.std.specs.Prelude.{◌≡◌, Ok, Err, option_map, is_some, if◌then◌else◌};
ghost use Rattle.serde_json.specs.View.{view};
ghost use Rattle.usage_walk.specs.Json as json;
ghost use Rattle.mud_base.specs.Readings.{Answers};
ghost use Rattle.console_bodies.specs.Objects as spec;
ghost use Rattle.console_bodies.specs.declared.fault.BodyFault.TheVariants.{Json};
ghost use Rattle.serde_json.specs.Find.{as_object};

use crate::fault::{BodyFault, Unread};
use crate::member::Member;
use serde_json::Value;
use std::alloc::Global;

/// The JSON value of these octets (RFC 8259).
#[tactic(auto, using(usage_walk::proofs::JsonValues::value_some, usage_walk::proofs::JsonValues::value_none))]
fn value_in(alloc: Global, octets: &[u8]) -> Result<Value, Unread>
    ensures { Answers view result (spec.as_json (json.value_in octets.now)) }
{
    match Value::from_slice(alloc, octets) {
        Ok(value) => Ok(value),
        Err(error) if error.is_memory() => Err(Unread::Memory),
        Err(_) => Err(Unread::Broken(BodyFault::Json)),
    }
}

/// A value, where it is an object.
fn as_object(value: Value) -> Result<Value, Unread>
    ensures { Answers view result (if is_some (as_object (view value)) then Ok (view value) else Err Json) }
{
    if value.is_object() {
        Ok(value)
    } else {
        Err(Unread::Broken(BodyFault::Json))
    }
}

/// The JSON object that the octets of a body are.
#[tactic(auto, unfolding(crate::specs::Objects::object_of))]
pub(crate) fn read_object(alloc: Global, octets: &[u8]) -> Result<Value, Unread>
    ensures { Answers view result (spec.object_of octets.now) }
{
    let value = value_in(alloc, octets)?;
    as_object(value)
}

/// The member of an object, where it is there.
#[tactic(auto, unfolding(crate::specs::Objects::member_in))]
pub(crate) fn member_in(object: &Value, member: Member) -> Option<&Value>
    ensures { option_map (λ v. view v.now) result ≡ spec.member_in member (view object.now) }
{
    object.get(member.name())
}

/// The text that a member of an object is, where it is one.
#[tactic(auto, unfolding(crate::specs::Objects::text_in, crate::specs::Objects::member_in))]
pub(crate) fn text_in(object: &Value, member: Member) -> Option<&str>
    ensures { option_map (λ t. t.now) result ≡ spec.text_in member (view object.now) }
{
    object.get(member.name()).and_then(Value::as_str)
}

/// The whole number that a member of an object is, where it is one: from 0 on, below 2^64.
#[tactic(auto, unfolding(crate::specs::Objects::number_in, crate::specs::Objects::member_in))]
pub(crate) fn number_in(object: &Value, member: Member) -> Option<u64>
    ensures { result ≡ spec.number_in member (view object.now) }
{
    object.get(member.name()).and_then(Value::as_u64)
}
