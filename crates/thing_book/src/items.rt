//! The items in which Things are kept, and the puts that a change of rows means.
ghost use Rattle.std.specs.Prelude.{◌≡◌, ◌++◌, ◌<◌, ◌≤◌, ◌^◌, [], length, flat_map, IfOk, OnOk};
ghost use Rattle.std.specs.List.{AllByRecursion};
ghost use Rattle.std.specs.Option.{option_map};
ghost use Rattle.item_codec.specs.Kinds.{thing_kind};
ghost use Rattle.item_codec.specs.Spelling.{string};
ghost use Rattle.item_codec.specs.Records.{optional, elements};
ghost use Rattle.base_rows.specs.Changes.{with_found};
ghost use Rattle.mud_world.specs.Items.{puts_of, set_put, gone_put};
ghost use Rattle.table_model.specs.ItemFields.{expiring};
ghost use Rattle.table_model.specs.ThingItems.{thing_fields, hold_octet, thing_body};
ghost use Rattle.table_model.specs.ThingItems as spec;
ghost use Rattle.thing_book.specs.Changes.{HasFewLeases};

use base_rows::Change;
use item_codec::FieldWriter;
use item_codec::kinds::THING_KIND;
use mud_base::{Addr, Bytes, End, Listed, Mac, Memory};
use mud_url::MudUrl;
use mud_world::{Item, Put};
use std::alloc::Global;
use table_model::Thing;
use table_model::fields::write_expiring;

/// The version of the body that is written, and the last one that is read.
pub const VERSION: u8 = 2;

/// The puts of a change of rows: the item of the Thing that goes, and then those of the Things that
/// are put in.
#[tactic(auto, unfolding(mud_world::specs::Items::puts_of, mud_world::specs::Items::set_put))]
pub(crate) fn puts_of(alloc: Global, change: &Change<Mac, Thing>) -> Result<Listed<Put>, Memory>
    requires { AllByRecursion HasFewLeases change.now.sets }
    ensures { IfOk result (λ puts. puts ≡ puts_of thing_kind spec.thing_item change.now) }
{
    let mut puts = gone_puts(alloc, change.gone())?;
    for thing in change.sets() {
        puts.push(Put::Set(item_of(alloc, thing)?))?;
    }
    Ok(puts)
}

/// The put of the Thing that goes.
#[tactic(auto, unfolding(mud_world::specs::Items::gone_put))]
fn gone_puts(alloc: Global, gone: Option<&Mac>) -> Result<Listed<Put>, Memory>
    ensures { IfOk result (λ puts. puts ≡ with_found (option_map (gone_put thing_kind) (option_map (λ mac. mac.now.0) gone.entry)) []) }
{
    let mut puts = Listed::new(alloc);
    if let Some(mac) = gone {
        let key = Bytes::new(alloc, mac.0.as_slice())?;
        puts.push(Put::Gone(THING_KIND, key))?;
    }
    Ok(puts)
}

/// The item of a Thing.
#[tactic(auto, unfolding(table_model::specs::ThingItems::thing_item, table_model::specs::ThingItems::thing_body, item_codec::specs::Spelling::version_of))]
pub(crate) fn item_of(alloc: Global, thing: &Thing) -> Result<Item, Memory>
    requires { HasFewLeases thing.now }
    ensures { IfOk result (λ item. item ≡ spec.thing_item thing.now) }
{
    let key = Bytes::new(alloc, thing.mac.0.as_slice())?;
    let mut writer = FieldWriter::new(alloc);
    writer.number(1, VERSION as u64)?;
    write_fields(&mut writer, thing)?;
    write_hold(&mut writer, thing.held)?;
    Ok(Item {
        kind: THING_KIND,
        key,
        body: writer.into_bytes(),
    })
}

/// Writes what both versions of the body say.
#[tactic(auto, unfolding(table_model::specs::ThingItems::thing_fields))]
fn write_fields(writer: &mut FieldWriter, thing: &Thing) -> Result<(), Memory>
    requires { HasFewLeases thing.now }
    ensures { OnOk result (writer.new ≡ writer.old ++ thing_fields thing.now) }
{
    write_url(writer, &thing.url)?;
    write_pending(writer, &thing.pending)?;
    write_leases(writer, thing.leases.as_slice())
}

/// Writes a URL: its text.
fn write_url(writer: &mut FieldWriter, url: &MudUrl) -> Result<(), Memory>
    ensures { OnOk result (writer.new ≡ writer.old ++ string url.now) }
{
    writer.string(url.text())
}

/// Writes the URL that waits: the octet 0, or 1 and its text.
#[tactic(auto, unfolding(item_codec::specs::Records::optional))]
fn write_pending(writer: &mut FieldWriter, pending: &Option<MudUrl>) -> Result<(), Memory>
    ensures { OnOk result (writer.new ≡ writer.old ++ optional string pending.now) }
{
    match pending {
        Some(url) => {
            writer.number(1, 1)?;
            write_url(writer, url)
        }
        None => writer.number(1, 0),
    }
}

/// Writes leases: their count, and each address with its expiry.
#[tactic(auto, unfolding(item_codec::specs::Records::elements, item_codec::specs::Spelling::list))]
fn write_leases(writer: &mut FieldWriter, leases: &[(Addr, End)]) -> Result<(), Memory>
    requires { length leases.now < 2 ^ 16 }
    ensures { OnOk result (writer.new ≡ writer.old ++ elements expiring leases.now) }
{
    writer.number(2, leases.len() as u64)?;
    write_expirings(writer, leases)
}

/// Writes each address with its expiry.
fn write_expirings(writer: &mut FieldWriter, leases: &[(Addr, End)]) -> Result<(), Memory>
    ensures { OnOk result (writer.new ≡ writer.old ++ flat_map expiring leases.now) }
{
    for row in leases {
        write_expiring(writer, *row)?;
    }
    Ok(())
}

/// Writes whether a Thing is held: the octet 1, and else 0.
#[tactic(auto, unfolding(table_model::specs::ThingItems::hold_octet))]
fn write_hold(writer: &mut FieldWriter, held: bool) -> Result<(), Memory>
    ensures { OnOk result (writer.new ≡ writer.old ++ hold_octet held) }
{
    if held {
        writer.number(1, 1)
    } else {
        writer.number(1, 0)
    }
}
