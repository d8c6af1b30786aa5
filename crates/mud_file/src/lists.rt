//! The access lists of a file, and the names by which a policy calls them (RFC 8520, 3.3; RFC 8519,
//! 4.1).
ghost use Rattle.std.specs.Prelude.{◌≡◌, ◌++◌, map, IfOk, []};
ghost use Rattle.serde_json.specs.View.{view};
ghost use Rattle.mud_base.specs.Readings.{Gives, Refuses, wanted};
ghost use Rattle.usage_walk.specs.Reading.{fault_at};
ghost use Rattle.usage_walk.specs.Reading as walk;
ghost use Rattle.usage_walk.specs.Elements.{element_view, elements_view};
ghost use Rattle.usage_walk.specs.declared.fault.Rule.TheVariants as rule;
ghost use Rattle.usage_walk.specs.declared.member.Member.TheVariants as members;
ghost use Rattle.mud_file.specs.Entries as spec;
ghost use Rattle.usage_match.specs.declared.entry_tests.ListType.TheVariants.{Ipv4};

use crate::entries::{AccessList, entries_in};
use crate::words::type_in;
use acl_model::Entry;
use mud_base::{Bytes, Direction, Listed, Memory};
use serde_json::Value;
use std::alloc::Global;
use usage_match::ListType;
use usage_walk::kinds::{list_where_there, object_where_there, text_at};
use usage_walk::path::{at_index, refusal, under};
use usage_walk::{Element, Elements, FileFault, Member, Rule};

/// The most entries of a direction.
const MOST_ENTRIES: usize = 128;

/// The type that a text names.
#[tactic(auto, using(mud_base::proofs::Readings::answer_wanted, mud_base::proofs::Readings::answer_unwanted))]
fn as_type(alloc: Global, text: &str, path: &[u8]) -> Result<ListType, FileFault>
    ensures { Gives (λ t. t) result (wanted Ipv4 (fault_at rule.AclType (walk.under path.now members.Kind)) (spec.type_named (spec.without_module text.now))) }
{
    match type_in(text.as_bytes()) {
        Some(list_type) => Ok(list_type),
        None => Err(refusal(alloc, Rule::AclType, path, Member::Kind)),
    }
}

/// The type of the access list at this path.
#[tactic(auto, unfolding(crate::specs::Entries::type_at), using(mud_base::proofs::Readings::answer_bind))]
fn type_at(alloc: Global, acl: &Value, path: &[u8]) -> Result<ListType, FileFault>
    ensures { Gives (λ t. t) result (spec.type_at path.now (view acl.now)) }
{
    let text = text_at(alloc, acl, path, Member::Kind)?;
    as_type(alloc, text, path)
}

/// Where the entries of the access list at this path stand.
#[tactic(auto)]
fn entries_path(alloc: Global, path: &[u8]) -> Result<Bytes, Memory>
    ensures { IfOk result (λ found. found ≡ walk.under (walk.under path.now members.Aces) members.Ace) }
{
    let aces = under(alloc, path, Member::Aces)?;
    under(alloc, aces.octets(), Member::Ace)
}

/// The elements of the list of entries of the access list at this path: none where there is no such
/// list.
#[tactic(auto, unfolding(crate::specs::Entries::aces_at), using(mud_base::proofs::Readings::answer_bind))]
fn aces<'a>(alloc: Global, acl: &'a Value, path: &[u8]) -> Result<&'a [Value], FileFault>
    ensures { Gives (λ l. map view l.now) result (spec.aces_at path.now (view acl.now)) }
{
    let aces = object_where_there(alloc, Some(acl), path, Member::Aces)?;
    let path = under(alloc, path, Member::Aces)?;
    list_where_there(alloc, aces, path.octets(), Member::Ace)
}

/// The entries of the access list at this path, read for this side, in which so many entries of the
/// direction may stand.
#[tactic(auto, unfolding(crate::specs::Entries::list_at), using(mud_base::proofs::Readings::answer_bind))]
fn list_entries(
    alloc: Global,
    side: Direction,
    room: usize,
    acl: Element<'_>,
    path: &[u8],
) -> Result<Listed<Entry>, FileFault>
    ensures { Gives (λ e. e) result (spec.list_at side room path.now (element_view acl.entry)) }
{
    let list_type = type_at(alloc, acl.value, path)?;
    let values = aces(alloc, acl.value, path)?;
    let path = entries_path(alloc, path)?;
    let list = AccessList {
        list_type,
        side,
        path: path.octets(),
        name: acl.name,
        room,
    };
    entries_in(alloc, &list, values)
}

/// Where the access list with this index stands.
fn acl_path(alloc: Global, index: usize) -> Result<Bytes, Memory>
    ensures { IfOk result (λ found. found ≡ walk.at_index (walk.under (walk.under [] members.Acls) members.Acl) index) }
{
    let acls = under(alloc, &[], Member::Acls)?;
    let list = under(alloc, acls.octets(), Member::Acl)?;
    at_index(alloc, list.octets(), index)
}

/// The refusal of the name with this index in the list at this path, which no access list has.
fn no_such_acl(alloc: Global, path: &[u8], index: usize) -> FileFault
    ensures { Refuses result (fault_at rule.NoSuchAcl (walk.under (walk.at_index path.now index) members.Name)) }
{
    match at_index(alloc, path, index) {
        Ok(path) => refusal(alloc, Rule::NoSuchAcl, path.octets(), Member::Name),
        Err(Memory) => FileFault::Memory,
    }
}

/// The access list of this name, which stands in the list of names at this path.
#[tactic(auto, unfolding(crate::specs::Entries::acl_named), using(mud_base::proofs::Readings::answer_wanted, mud_base::proofs::Readings::answer_unwanted))]
fn acl_named<'a>(
    alloc: Global,
    acls: &Elements<'a>,
    name: Element<'_>,
    path: &[u8],
) -> Result<Element<'a>, FileFault>
    ensures { Gives element_view result (spec.acl_named path.now (elements_view acls.now) (element_view name.entry)) }
{
    match acls.named(name.name) {
        Some(acl) => Ok(acl),
        None => Err(no_such_acl(alloc, path, name.index)),
    }
}

/// These entries and then those.
fn joined(first: Listed<Entry>, second: Listed<Entry>) -> Result<Listed<Entry>, Memory>
    ensures { IfOk result (λ all. all ≡ first ++ second) }
{
    let mut all = first.into_vec();
    all.append(&mut second.into_vec())?;
    Ok(Listed::from_vec(all))
}

/// The entries of the direction so far, and those of the access list of this name.
#[tactic(auto, unfolding(crate::specs::Entries::next_list), using(mud_base::proofs::Readings::answer_bind, mud_base::proofs::Readings::answer_done))]
fn with_list(
    alloc: Global,
    side: Direction,
    acls: &Elements<'_>,
    so_far: Listed<Entry>,
    name: Element<'_>,
    path: &[u8],
) -> Result<Listed<Entry>, FileFault>
    ensures { Gives (λ e. e) result (spec.next_list side path.now (elements_view acls.now) so_far (element_view name.entry)) }
{
    let acl = acl_named(alloc, acls, name, path)?;
    let path = acl_path(alloc, acl.index)?;
    let room = MOST_ENTRIES.saturating_sub(so_far.len());
    let entries = list_entries(alloc, side, room, acl, path.octets())?;
    Ok(joined(so_far, entries)?)
}

/// All entries of the direction: those of the access lists of these names, which stand at this
/// path.
#[tactic(auto, unfolding(crate::specs::Entries::entries_of), using(crate::proofs::Elements::over_taken, crate::proofs::Elements::over_refused, crate::proofs::Elements::over_past))]
pub fn entries_of(
    alloc: Global,
    side: Direction,
    acls: &Elements<'_>,
    names: &[Element<'_>],
    path: &[u8],
) -> Result<Listed<Entry>, FileFault>
    ensures { Gives (λ e. e) result (spec.entries_of side path.now (elements_view acls.now) (elements_view names.now)) }
{
    let mut entries = Listed::new(alloc);
    'names: for name in names {
        entries = with_list(alloc, side, acls, entries, *name, path)?;
    }
    Ok(entries)
}
