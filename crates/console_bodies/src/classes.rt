//! Classes, and what the operator says of a file, as a body has them.
ghost use Rattle.std.specs.Prelude.{◌≡◌, option_map, option_and_then, is_some, []};
ghost use Rattle.serde_json.specs.View.{view};
ghost use Rattle.mud_base.specs.Readings.{Gives, refused_where};
ghost use Rattle.console_bodies.specs.Statements as spec;
ghost use Rattle.usage_tables.specs.declared.approval.OperatorVerdict.TheVariants.{Failed};
ghost use Rattle.console_bodies.specs.Values.{meant};
ghost use Rattle.console_bodies.specs.declared.member.Member.TheVariants as members;
ghost use Rattle.console_bodies.specs.Objects.{text_in, member_in};
ghost use Rattle.console_bodies.specs.declared.fault.BodyFault.TheVariants as fault;

use crate::object::{member_in, text_in};
use crate::texts::url;
use crate::values::meant;
use crate::{BodyFault, Member, Unread};
use mud_base::Bytes;
use serde_json::Value;
use std::alloc::Global;
use table_model::Class;
use table_model::sound::is_class_uri;
use usage_tables::OperatorVerdict;

/// The text, where it is the URI of a class.
fn uri_in(text: &str) -> Option<&str>
    ensures { option_map (λ t. t.now) result ≡ spec.uri_in text.now }
{
    if is_class_uri(text.as_bytes()) {
        Some(text)
    } else {
        None
    }
}

/// The URI that `class` is: 1 to 255 octets from 21 to 7E hex.
#[tactic(auto, unfolding(crate::specs::Values::meant), using(mud_base::proofs::Readings::answer_wanted, mud_base::proofs::Readings::answer_unwanted))]
fn uri(alloc: Global, object: &Value) -> Result<Bytes, Unread>
    ensures { Gives (λ u. u) result (meant [] members.Class (option_and_then spec.uri_in (text_in members.Class (view object.now)))) }
{
    match text_in(object, Member::Class).and_then(uri_in) {
        Some(text) => Ok(Bytes::new(alloc, text.as_bytes())?),
        None => Err(Unread::Broken(BodyFault::Member(Member::Class))),
    }
}

/// The class by the URI that `class` is.
#[tactic(auto, unfolding(crate::specs::Statements::uri_class), using(mud_base::proofs::Readings::answer_bind, mud_base::proofs::Readings::answer_done))]
fn uri_class(alloc: Global, object: &Value) -> Result<Class, Unread>
    ensures { Gives (λ c. c) result (spec.uri_class (view object.now)) }
{
    Ok(Class::Uri(uri(alloc, object)?))
}

/// The controllers of the Things with the MUD URL that `my-controller-of` is.
#[tactic(auto, unfolding(crate::specs::Statements::own_class), using(mud_base::proofs::Readings::answer_bind, mud_base::proofs::Readings::answer_done))]
fn own_class(object: &Value) -> Result<Class, Unread>
    ensures { Gives (λ c. c) result (spec.own_class (view object.now)) }
{
    Ok(Class::Mine(url(object, Member::MyControllerOf)?))
}

/// Where `class` stands beside `my-controller-of`, the second is wrong.
#[tactic(auto, using(mud_base::proofs::Readings::answer_passed, mud_base::proofs::Readings::answer_refused))]
fn only_own(object: &Value) -> Result<(), Unread>
    ensures { Gives (λ _. tt) result (refused_where (is_some (member_in members.Class (view object.now))) (fault.Member members.MyControllerOf)) }
{
    match member_in(object, Member::Class) {
        Some(_) => Err(Unread::Broken(BodyFault::Member(Member::MyControllerOf))),
        None => Ok(()),
    }
}

/// The class of an object with `my-controller-of`.
#[tactic(auto, unfolding(crate::specs::Statements::own_alone), using(mud_base::proofs::Readings::answer_bind))]
fn own_alone(object: &Value) -> Result<Class, Unread>
    ensures { Gives (λ c. c) result (spec.own_alone (view object.now)) }
{
    only_own(object)?;
    own_class(object)
}

/// The class that an object names, by `class` or by `my-controller-of`.
#[tactic(auto, unfolding(crate::specs::Statements::class_at))]
pub(crate) fn class(alloc: Global, object: &Value) -> Result<Class, Unread>
    ensures { Gives (λ c. c) result (spec.class_at (view object.now)) }
{
    match member_in(object, Member::MyControllerOf) {
        Some(_) => own_alone(object),
        None => uri_class(alloc, object),
    }
}

/// What the operator says of a candidate, by the word.
#[tactic(auto, unfolding(crate::specs::Statements::verdict_in))]
fn verdict_in(word: &str) -> Option<OperatorVerdict>
    ensures { result ≡ spec.verdict_in word.now }
{
    VERDICTS
        .iter()
        .copied()
        .find(|verdict| verdict_text(*verdict) == word)
}

/// What the operator says of a candidate.
#[tactic(auto)]
pub(crate) fn verdict(object: &Value) -> Result<OperatorVerdict, Unread>
    ensures { Gives (λ v. v) result (meant Failed members.Verdict (option_and_then spec.verdict_in (text_in members.Verdict (view object.now)))) }
{
    let verdict = text_in(object, Member::Verdict).and_then(verdict_in);
    meant(verdict, Member::Verdict)
}

/// All that the operator may say of a candidate.
const VERDICTS: [OperatorVerdict; 3] = [
    OperatorVerdict::Verified,
    OperatorVerdict::Waived,
    OperatorVerdict::Failed,
];

/// The word for what the operator says.
#[tactic(auto, unfolding(crate::specs::Statements::text_of))]
fn verdict_text(verdict: OperatorVerdict) -> &'static str
    ensures { result.now ≡ spec.text_of verdict }
{
    match verdict {
        OperatorVerdict::Verified => "verified",
        OperatorVerdict::Waived => "waived",
        OperatorVerdict::Failed => "failed",
    }
}
