//! The entries of an access list (RFC 8519, 4.1).
ghost use Rattle.std.specs.Prelude.{◌≡◌, map, bytes_eq};
ghost use Rattle.serde_json.specs.View.{view};
ghost use Rattle.mud_base.specs.Readings.{Gives, done};
ghost use Rattle.mud_file.specs.Entries as spec;
ghost use Rattle.mud_file.specs.Lists.{list_head};
ghost use Rattle.std.specs.List.{list_any};

use crate::words::{action_in, family_of};
use acl_model::{Action, Entry};
use mud_base::{Bytes, Direction, Listed};
use serde_json::Value;
use std::alloc::Global;
use usage_match::{ListType, Tests, tests_at};
use usage_walk::kinds::{object_at, object_here, text_at};
use usage_walk::path::{at_index, refusal, refuse_here_where, under};
use usage_walk::{FileFault, Member, Rule};

/// The access list whose entries are read.
#[derive(Clone, Copy)]
pub struct AccessList<'a> {
    /// Its type: the IP version that its entries are for.
    pub list_type: ListType,
    /// The direction that it is read for.
    pub side: Direction,
    /// Where its entries stand.
    pub path: &'a [u8],
    /// Its name.
    pub name: &'a str,
    /// How many entries of the direction may stand in it.
    pub room: usize,
}

/// What becomes of a packet, as a text names it.
#[tactic(auto, unfolding(crate::specs::Entries::as_action), using(mud_base::proofs::Readings::answer_wanted, mud_base::proofs::Readings::answer_unwanted))]
fn as_action(alloc: Global, text: &str, path: &[u8]) -> Result<Action, FileFault>
    ensures { Gives (λ a. a) result (spec.as_action path.now text.now) }
{
    match action_in(text.as_bytes()) {
        Some(action) => Ok(action),
        None => Err(refusal(alloc, Rule::Action, path, Member::Forwarding)),
    }
}

/// What the actions at this path make of a packet.
#[tactic(auto, unfolding(crate::specs::Entries::action_of), using(mud_base::proofs::Readings::answer_bind))]
fn action_of(alloc: Global, actions: &Value, path: &[u8]) -> Result<Action, FileFault>
    ensures { Gives (λ a. a) result (spec.action_of path.now (view actions.now)) }
{
    let text = text_at(alloc, actions, path, Member::Forwarding)?;
    as_action(alloc, text, path)
}

/// What becomes of a packet, of the entry at this path.
#[tactic(auto, unfolding(crate::specs::Entries::action_at), using(mud_base::proofs::Readings::answer_bind))]
fn action(alloc: Global, entry: &Value, path: &[u8]) -> Result<Action, FileFault>
    ensures { Gives (λ a. a) result (spec.action_at path.now (view entry.now)) }
{
    let actions = object_at(alloc, entry, path, Member::Actions)?;
    let path = under(alloc, path, Member::Actions)?;
    action_of(alloc, actions, path.octets())
}

/// Whether one of the entries has this name.
#[tactic(auto)]
fn is_entry_named(name: &[u8], entries: &[Entry]) -> bool
    ensures { result ≡ list_any (λ e. bytes_eq e.name name.now) entries.now }
{
    entries.iter().any(|entry| entry.name.octets() == name)
}

/// The name, where no entry has it.
#[tactic(auto, unfolding(crate::specs::Entries::new_entry_name), using(mud_base::proofs::Readings::answer_bind, mud_base::proofs::Readings::answer_done, mud_base::proofs::Readings::answer_passed, mud_base::proofs::Readings::answer_refused))]
fn new_entry_name<'a>(
    alloc: Global,
    entries: &[Entry],
    name: &'a str,
    path: &[u8],
) -> Result<&'a str, FileFault>
    ensures { Gives (λ n. n.now) result (spec.new_entry_name path.now entries.now name.now) }
{
    if is_entry_named(name.as_bytes(), entries) {
        return Err(refusal(alloc, Rule::RepeatedName, path, Member::Name));
    }
    Ok(name)
}

/// The name of the entry at this path, behind these of its list.
#[tactic(auto, unfolding(crate::specs::Entries::entry_name_at), using(mud_base::proofs::Readings::answer_bind))]
fn entry_name<'a>(
    alloc: Global,
    entries: &[Entry],
    entry: &'a Value,
    path: &[u8],
) -> Result<&'a str, FileFault>
    ensures { Gives (λ n. n.now) result (spec.entry_name_at path.now entries.now (view entry.now)) }
{
    let name = text_at(alloc, entry, path, Member::Name)?;
    new_entry_name(alloc, entries, name, path)
}

/// The entry of this access list that has these parts.
#[tactic(auto, unfolding(crate::specs::Entries::entry_of), using(mud_base::proofs::Readings::answer_done))]
fn entry_of(
    alloc: Global,
    list: &AccessList<'_>,
    name: &str,
    tests: Tests,
    action: Action,
) -> Result<Entry, FileFault>
    ensures { Gives (λ e. e) result (done (spec.entry_of (list_head list.now) name.now tests action)) }
{
    let Ok(acl) = Bytes::new(alloc, list.name.as_bytes()) else {
        drop(tests);
        return Err(FileFault::Memory);
    };
    let Ok(name) = Bytes::new(alloc, name.as_bytes()) else {
        drop(acl);
        drop(tests);
        return Err(FileFault::Memory);
    };
    Ok(Entry {
        acl,
        name,
        family: family_of(list.list_type),
        selectors: tests.selectors,
        own: tests.own,
        protocol: tests.protocol,
        dscp: tests.dscp,
        ecn: tests.ecn,
        length: tests.length,
        ttl: tests.ttl,
        layer: tests.layer,
        action,
    })
}

/// The entry at this path, behind these of its list.
#[tactic(auto, unfolding(crate::specs::Entries::entry_at), using(mud_base::proofs::Readings::answer_bind))]
fn entry_at(
    alloc: Global,
    list: &AccessList<'_>,
    entries: &[Entry],
    value: &Value,
    path: &[u8],
) -> Result<Entry, FileFault>
    ensures { Gives (λ e. e) result (spec.entry_at (list_head list.now) path.now entries.now (view value.now)) }
{
    let object = object_here(alloc, value, path)?;
    refuse_here_where(alloc, entries.len() >= list.room, Rule::EntriesFull, path)?;
    let name = entry_name(alloc, entries, object, path)?;
    let tests = tests_at(alloc, list.list_type, list.side, object, path)?;
    match action(alloc, object, path) {
        Ok(action) => entry_of(alloc, list, name, tests, action),
        Err(fault) => {
            drop(tests);
            Err(fault)
        }
    }
}

/// Reads the next entry of a list, which has this path.
#[tactic(auto, unfolding(crate::specs::Entries::with_entry), using(mud_base::proofs::Readings::answer_bind, mud_base::proofs::Readings::answer_done))]
fn add_entry(
    alloc: Global,
    list: &AccessList<'_>,
    entries: &mut Listed<Entry>,
    value: &Value,
    path: &[u8],
) -> Result<(), FileFault>
    ensures { Gives (λ _. entries.new) result (spec.with_entry (list_head list.now) path.now entries.old (view value.now)) }
{
    let entry = entry_at(alloc, list, entries.as_slice(), value, path)?;
    entries.push(entry)?;
    Ok(())
}

/// Reads the next entry of a list.
#[tactic(auto, unfolding(crate::specs::Entries::next_entry))]
fn next_entry(
    alloc: Global,
    list: &AccessList<'_>,
    entries: &mut Listed<Entry>,
    value: &Value,
) -> Result<(), FileFault>
    ensures { Gives (λ _. entries.new) result (spec.next_entry (list_head list.now) entries.old (view value.now)) }
{
    let path = at_index(alloc, list.path, entries.len())?;
    add_entry(alloc, list, entries, value, path.octets())
}

/// The entries that these values are.
#[tactic(auto, unfolding(crate::specs::Entries::entries_in), using(mud_base::proofs::Readings::over_taken, mud_base::proofs::Readings::over_refused, mud_base::proofs::Readings::over_past))]
pub(crate) fn entries_in(
    alloc: Global,
    list: &AccessList<'_>,
    values: &[Value],
) -> Result<Listed<Entry>, FileFault>
    ensures { Gives (λ e. e) result (spec.entries_in (list_head list.now) (map view values.now)) }
{
    let mut entries = Listed::new(alloc);
    'values: for value in values {
        next_entry(alloc, list, &mut entries, value)?;
    }
    Ok(entries)
}
