//! The member that is a list of prefixes.
ghost use Rattle.std.specs.Prelude.{◌≡◌, map, option_and_then, []};
ghost use Rattle.serde_json.specs.View.{view};
ghost use Rattle.mud_base.specs.Readings.{Gives};
ghost use Rattle.console_bodies.specs.Values as spec;
ghost use Rattle.usage_walk.specs.Kinds.{list_in};
ghost use Rattle.console_bodies.specs.declared.member.Member.TheVariants as members;
ghost use Rattle.console_bodies.specs.Objects.{member_in};

use crate::fault::{BodyFault, Unread};
use crate::member::Member;
use crate::object::member_in;
use crate::values::meant;
use mud_base::{Listed, Prefix, prefix_of};
use serde_json::Value;
use std::alloc::Global;

/// Reads the next prefix of the list.
#[tactic(auto, unfolding(crate::specs::Values::next_prefix), using(mud_base::proofs::Readings::answer_bind, mud_base::proofs::Readings::answer_done))]
fn next_prefix(prefixes: &mut Listed<Prefix>, value: &Value) -> Result<(), Unread>
    ensures { Gives (λ _. prefixes.new) result (spec.next_prefix prefixes.old (view value.now)) }
{
    let prefix = value.as_str().and_then(|text| prefix_of(text.as_bytes()));
    prefixes.push(meant(prefix, Member::Prefixes)?)?;
    Ok(())
}

/// The prefixes that these values write.
#[tactic(auto, unfolding(crate::specs::Values::prefixes_of), using(mud_base::proofs::Readings::over_taken, mud_base::proofs::Readings::over_refused, mud_base::proofs::Readings::over_past))]
fn prefixes_of(alloc: Global, values: &[Value]) -> Result<Listed<Prefix>, Unread>
    ensures { Gives (λ p. p) result (spec.prefixes_of (map view values.now)) }
{
    let mut prefixes = Listed::new(alloc);
    'values: for value in values {
        next_prefix(&mut prefixes, value)?;
    }
    Ok(prefixes)
}

/// The elements of the list that `prefixes` is.
#[tactic(auto, unfolding(crate::specs::Values::meant), using(mud_base::proofs::Readings::answer_wanted, mud_base::proofs::Readings::answer_unwanted, usage_walk::proofs::Items::list_in_some))]
fn list(object: &Value) -> Result<&[Value], Unread>
    ensures { Gives (λ l. map view l.now) result (spec.meant [] members.Prefixes (option_and_then list_in (member_in members.Prefixes (view object.now)))) }
{
    match member_in(object, Member::Prefixes).and_then(Value::as_array) {
        Some(list) => Ok(list.as_slice()),
        None => Err(Unread::Broken(BodyFault::Member(Member::Prefixes))),
    }
}

/// The prefixes that the list `prefixes` writes, in its order.
#[tactic(auto, unfolding(crate::specs::Values::prefixes_at), using(mud_base::proofs::Readings::answer_bind))]
pub(crate) fn prefixes(alloc: Global, object: &Value) -> Result<Listed<Prefix>, Unread>
    ensures { Gives (λ p. p) result (spec.prefixes_at (view object.now)) }
{
    let list = list(object)?;
    prefixes_of(alloc, list)
}
