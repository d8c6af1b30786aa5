//! The lists, written: each item as soon as its text is made.
ghost use Rattle.std.specs.Prelude.{◌≡◌, ◌++◌, IfOk, OnOk, OnErr, flat_map, IsTrue};
ghost use Rattle.mud_world.specs.Causes.{Counts};
ghost use Rattle.mud_world.specs.Door.{put_out};
ghost use Rattle.run_common.specs.Ends.{IsStoppedWriting};
ghost use Rattle.run_common.specs.Output.{WroteFirst};
ghost use Rattle.run_common.specs.Stops.{has_failed};
ghost use Rattle.text_values.specs.Lists.{behind_comma};
ghost use Rattle.rule_export.specs.Text.{resolved_text, items_text};
ghost use Rattle.run_reports.specs.Export.Sources.{source_text, sources_text};
ghost use Rattle.run_reports.specs.Export.Lists as spec;

use crate::export::lists::{ListName, all_lists, back_of, family_of, front_of};
use crate::export::sources::Sources;
use acl_rows::RuleView;
use mud_base::{Bytes, Family, Memory};
use mud_world::Door;
use rule_export::{Resolved, append_resolved};
use run_common::{Stop, write_text};
use std::alloc::Global;

/// The text of an item, behind these octets.
fn item_behind(
    alloc: Global,
    before: &[u8],
    view: &RuleView<'_>,
    family: Family,
    item: &Resolved,
) -> Result<Bytes, Memory>
    ensures { IfOk result (λ text. text ≡ before.now ++ resolved_text view.now family item.now) }
{
    let mut text = Bytes::new(alloc, before)?;
    append_resolved(alloc, &mut text, view, family, item)?;
    Ok(text)
}

/// Writes an item, behind these octets.
fn write_item<D: Door>(
    alloc: Global,
    door: &mut D,
    before: &[u8],
    view: &RuleView<'_>,
    family: Family,
    item: &Resolved,
) -> Result<(), Stop>
    ensures ok { D.tells → OnOk result ((D.view door.new).state ≡ put_out (before.now ++ resolved_text view.now family item.now) (D.view door.old).state) }
    ensures part { D.tells → OnErr result
        (WroteFirst (before.now ++ resolved_text view.now family item.now) (D.view door.old).state (D.view door.new).state) }
    ensures cause { Counts (has_failed result) (D.view door.old).writes (D.view door.new).writes }
    ensures stop { IsTrue (has_failed result) → IsStoppedWriting (D.view door.old) (D.view door.new) }
    ensures turns { (D.view door.new).turns ≡ (D.view door.old).turns }
    ensures reads { (D.view door.new).reads ≡ (D.view door.old).reads }
{
    let text = item_behind(alloc, before, view, family, item)?;
    write_text(door, text.octets())
}

/// Writes items, each behind a comma.
fn write_later<D: Door>(
    alloc: Global,
    door: &mut D,
    view: &RuleView<'_>,
    family: Family,
    items: &[Resolved],
) -> Result<(), Stop>
    ensures ok { D.tells → OnOk result ((D.view door.new).state
        ≡ put_out (flat_map (behind_comma (resolved_text view.now family)) items.now) (D.view door.old).state) }
    ensures part { D.tells → OnErr result
        (WroteFirst (flat_map (behind_comma (resolved_text view.now family)) items.now) (D.view door.old).state (D.view door.new).state) }
    ensures cause { Counts (has_failed result) (D.view door.old).writes (D.view door.new).writes }
    ensures stop { IsTrue (has_failed result) → IsStoppedWriting (D.view door.old) (D.view door.new) }
    ensures turns { (D.view door.new).turns ≡ (D.view door.old).turns }
    ensures reads { (D.view door.new).reads ≡ (D.view door.old).reads }
{
    'items: for item in items {
        write_item(alloc, door, b",", view, family, item)?;
    }
    Ok(())
}

/// Writes items, with commas between them.
#[tactic(auto, unfolding(text_values::specs::Lists::with_commas))]
fn write_items<D: Door>(
    alloc: Global,
    door: &mut D,
    view: &RuleView<'_>,
    family: Family,
    items: &[Resolved],
) -> Result<(), Stop>
    ensures ok { D.tells → OnOk result ((D.view door.new).state ≡ put_out (items_text view.now family items.now) (D.view door.old).state) }
    ensures part { D.tells → OnErr result (WroteFirst (items_text view.now family items.now) (D.view door.old).state (D.view door.new).state) }
    ensures cause { Counts (has_failed result) (D.view door.old).writes (D.view door.new).writes }
    ensures stop { IsTrue (has_failed result) → IsStoppedWriting (D.view door.old) (D.view door.new) }
    ensures turns { (D.view door.new).turns ≡ (D.view door.old).turns }
    ensures reads { (D.view door.new).reads ≡ (D.view door.old).reads }
{
    let Some((first, later)) = items.split_first() else {
        return Ok(());
    };
    write_item(alloc, door, b"", view, family, first)?;
    write_later(alloc, door, view, family, later)
}

/// Writes items, with commas between them, between these octets.
fn write_between<D: Door>(
    alloc: Global,
    door: &mut D,
    front: &[u8],
    view: &RuleView<'_>,
    family: Family,
    items: &[Resolved],
    back: &[u8],
) -> Result<(), Stop>
    ensures ok { D.tells → OnOk result ((D.view door.new).state
        ≡ put_out (front.now ++ (items_text view.now family items.now ++ back.now)) (D.view door.old).state) }
    ensures part { D.tells → OnErr result
        (WroteFirst (front.now ++ (items_text view.now family items.now ++ back.now)) (D.view door.old).state (D.view door.new).state) }
    ensures cause { Counts (has_failed result) (D.view door.old).writes (D.view door.new).writes }
    ensures stop { IsTrue (has_failed result) → IsStoppedWriting (D.view door.old) (D.view door.new) }
    ensures turns { (D.view door.new).turns ≡ (D.view door.old).turns }
    ensures reads { (D.view door.new).reads ≡ (D.view door.old).reads }
{
    write_text(door, front)?;
    write_items(alloc, door, view, family, items)?;
    write_text(door, back)
}

/// Writes a list. Its items are made first.
#[tactic(auto, unfolding(crate::specs::Export::Sources::source_text))]
fn write_list<D: Door>(
    alloc: Global,
    door: &mut D,
    sources: &Sources<'_>,
    name: &ListName,
) -> Result<(), Stop>
    ensures ok { D.tells → OnOk result ((D.view door.new).state ≡ put_out (source_text sources.now name.now) (D.view door.old).state) }
    ensures part { D.tells → OnErr result (WroteFirst (source_text sources.now name.now) (D.view door.old).state (D.view door.new).state) }
    ensures cause { Counts (has_failed result) (D.view door.old).writes (D.view door.new).writes }
    ensures stop { IsTrue (has_failed result) → IsStoppedWriting (D.view door.old) (D.view door.new) }
    ensures turns { (D.view door.new).turns ≡ (D.view door.old).turns }
    ensures reads { (D.view door.new).reads ≡ (D.view door.old).reads }
{
    let name = *name;
    let items = sources.items(alloc, name)?;
    write_between(
        alloc,
        door,
        front_of(name),
        sources.view_for(name),
        family_of(name),
        items.as_slice(),
        back_of(name),
    )
}

/// Writes the lists of these names.
fn write_named<D: Door>(
    alloc: Global,
    door: &mut D,
    sources: &Sources<'_>,
    names: &[ListName],
) -> Result<(), Stop>
    ensures ok { D.tells → OnOk result ((D.view door.new).state ≡ put_out (flat_map (source_text sources.now) names.now) (D.view door.old).state) }
    ensures part { D.tells → OnErr result (WroteFirst (flat_map (source_text sources.now) names.now) (D.view door.old).state (D.view door.new).state) }
    ensures cause { Counts (has_failed result) (D.view door.old).writes (D.view door.new).writes }
    ensures stop { IsTrue (has_failed result) → IsStoppedWriting (D.view door.old) (D.view door.new) }
    ensures turns { (D.view door.new).turns ≡ (D.view door.old).turns }
    ensures reads { (D.view door.new).reads ≡ (D.view door.old).reads }
{
    'lists: for list in names {
        write_list(alloc, door, sources, list)?;
    }
    Ok(())
}

/// Four empty lists.
#[tactic(auto, unfolding(crate::specs::Export::Lists::empty_lists, crate::specs::Export::Lists::all_lists, crate::specs::Export::Lists::front_of, crate::specs::Export::Lists::back_of))]
fn empty_lists() -> &'static [u8]
    ensures { result.now ≡ spec.empty_lists }
{
    b"{\"ietf-access-control-list:acls\":{\"acl\":[{\"aces\":{\"ace\":[]},\"name\":\"from-v4\",\"type\":\"ipv4-acl-type\"},{\"aces\":{\"ace\":[]},\"name\":\"from-v6\",\"type\":\"ipv6-acl-type\"},{\"aces\":{\"ace\":[]},\"name\":\"to-v4\",\"type\":\"ipv4-acl-type\"},{\"aces\":{\"ace\":[]},\"name\":\"to-v6\",\"type\":\"ipv6-acl-type\"}]}}\n"
}

/// Writes the four lists; empty ones without sources.
#[tactic(auto, unfolding(crate::specs::Export::Sources::sources_text))]
pub(crate) fn write_lists<D: Door>(
    alloc: Global,
    door: &mut D,
    sources: &Option<Sources<'_>>,
) -> Result<(), Stop>
    ensures ok { D.tells → OnOk result ((D.view door.new).state ≡ put_out (sources_text sources.now) (D.view door.old).state) }
    ensures part { D.tells → OnErr result (WroteFirst (sources_text sources.now) (D.view door.old).state (D.view door.new).state) }
    ensures cause { Counts (has_failed result) (D.view door.old).writes (D.view door.new).writes }
    ensures stop { IsTrue (has_failed result) → IsStoppedWriting (D.view door.old) (D.view door.new) }
    ensures turns { (D.view door.new).turns ≡ (D.view door.old).turns }
    ensures reads { (D.view door.new).reads ≡ (D.view door.old).reads }
{
    match sources {
        None => write_text(door, empty_lists()),
        Some(sources) => write_named(alloc, door, sources, &all_lists()),
    }
}
