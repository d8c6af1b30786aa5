//! The items in which the lists are kept, and the puts of a change of them. A body has a version and
//! one list.
ghost use Rattle.std.specs.Prelude.{◌≡◌, [], ◌∷◌, ◌++◌, ◌<◌, ◌^◌, IfOk, All, option_map};
ghost use Rattle.base_rows.specs.Changes.{with_found};
ghost use Rattle.mud_world.specs.Items.{gone_put, puts_of};
ghost use Rattle.item_codec.specs.Kinds.{class_kind, name_kind};
ghost use Rattle.item_codec.specs.Spelling.{version, list};
ghost use Rattle.table_model.specs.Fits.{FitsClass, FitsLocals, FitsName};
ghost use Rattle.table_model.specs.Binds.{key_of_class};
ghost use Rattle.bind_book.specs.Plans.{locals_put};
ghost use Rattle.table_model.specs.BindItems.{class_item, locals_item, name_item};

use crate::change::KeptName;
use base_rows::Change;
use item_codec::FieldWriter;
use item_codec::kinds::{CLASS_KIND, LOCALS_KIND, NAME_KIND};
use mud_base::{Bytes, Listed, Memory, Prefix};
use mud_world::{Item, Put};
use std::alloc::Global;
use table_model::fields::{write_address, write_expiring, write_network};
use table_model::{Class, ClassRow, NameRow};

/// The version of each body.
const VERSION: u64 = 1;

/// What the key of a class by URI begins with.
pub(crate) const BY_URI: u8 = 1;

/// What the key of a class by MUD URL begins with.
pub(crate) const BY_URL: u8 = 2;

/// The octets by which a class is kept.
#[tactic(auto, unfolding(table_model::specs::Binds::key_of_class))]
fn class_key(alloc: Global, class: &Class) -> Result<Bytes, Memory>
    ensures { IfOk result (λ key. key ≡ key_of_class class.now) }
{
    match class {
        Class::Uri(uri) => marked(alloc, BY_URI, uri.octets()),
        Class::Mine(url) => marked(alloc, BY_URL, url.text()),
    }
}

/// A text behind an octet.
fn marked(alloc: Global, mark: u8, text: &[u8]) -> Result<Bytes, Memory>
    ensures { IfOk result (λ key. key ≡ mark ∷ text.now) }
{
    let mut key = Bytes::empty(alloc);
    key.push(mark)?;
    key.append(text)?;
    Ok(key)
}

/// The beginning of a body with one list: the version, and how many elements there are.
#[tactic(auto, unfolding(item_codec::specs::Spelling::version, item_codec::specs::Spelling::version_of, item_codec::specs::Spelling::list))]
fn begin_list(alloc: Global, count: usize) -> Result<FieldWriter, Memory>
    requires { count < 2 ^ 16 }
    ensures { IfOk result (λ writer. writer ≡ version ++ list count) }
{
    let mut writer = FieldWriter::new(alloc);
    writer.number(1, VERSION)?;
    writer.number(2, count as u64)?;
    Ok(writer)
}

// ---- Classes

/// The item of a class.
fn class_item(alloc: Global, row: &ClassRow) -> Result<Item, Memory>
    requires { FitsClass row.now }
    ensures { IfOk result (λ item. item ≡ class_item row.now) }
{
    let addrs = row.addrs.as_slice();
    let key = class_key(alloc, &row.class)?;
    let mut body = begin_list(alloc, addrs.len())?;
    for addr in addrs {
        write_address(&mut body, *addr)?;
    }
    Ok(Item {
        kind: CLASS_KIND,
        key,
        body: body.into_bytes(),
    })
}

/// The put of the class that goes, where one goes.
#[tactic(auto, unfolding(mud_world::specs::Items::gone_put))]
fn put_of_gone_class(alloc: Global, change: &Change<Class, ClassRow>) -> Result<Listed<Put>, Memory>
    ensures { IfOk result (λ puts. puts ≡ with_found (option_map (gone_put class_kind) change.now.gone) []) }
{
    let mut puts = Listed::new(alloc);
    match change.gone() {
        Some(class) => {
            let key = class_key(alloc, class)?;
            puts.push(Put::Gone(CLASS_KIND, key))?;
            Ok(puts)
        }
        None => Ok(puts),
    }
}

/// The puts of a change of classes.
pub(crate) fn class_puts(
    alloc: Global,
    change: &Change<Class, ClassRow>,
) -> Result<Listed<Put>, Memory>
    requires { All FitsClass change.now.sets }
    ensures { IfOk result (λ puts. puts ≡ puts_of class_kind class_item change.now) }
{
    let mut puts = put_of_gone_class(alloc, change)?;
    for row in change.sets() {
        puts.push(Put::Set(class_item(alloc, row)?))?;
    }
    Ok(puts)
}

// ---- Local networks

/// The item of local networks.
fn locals_item(alloc: Global, locals: &[Prefix]) -> Result<Item, Memory>
    requires { FitsLocals locals.now }
    ensures { IfOk result (λ item. item ≡ locals_item locals.now) }
{
    let mut body = begin_list(alloc, locals.len())?;
    for prefix in locals {
        write_network(&mut body, prefix)?;
    }
    Ok(Item {
        kind: LOCALS_KIND,
        key: Bytes::empty(alloc),
        body: body.into_bytes(),
    })
}

/// The put of local networks: their item, or none of its key where there are none.
#[tactic(auto, unfolding(crate::specs::Plans::locals_put))]
pub(crate) fn locals_put(alloc: Global, locals: &[Prefix]) -> Result<Put, Memory>
    requires { FitsLocals locals.now }
    ensures { IfOk result (λ put. put ≡ locals_put locals.now) }
{
    if locals.is_empty() {
        return Ok(Put::Gone(LOCALS_KIND, Bytes::empty(alloc)));
    }
    Ok(Put::Set(locals_item(alloc, locals)?))
}

// ---- Names

/// The item of a name.
fn name_item(alloc: Global, row: &NameRow) -> Result<Item, Memory>
    requires { FitsName row.now }
    ensures { IfOk result (λ item. item ≡ name_item row.now) }
{
    let addrs = row.addrs.as_slice();
    let key = row.name.copy()?;
    let mut body = begin_list(alloc, addrs.len())?;
    for kept in addrs {
        write_expiring(&mut body, *kept)?;
    }
    Ok(Item {
        kind: NAME_KIND,
        key,
        body: body.into_bytes(),
    })
}

/// The put of the name that goes, where one goes.
#[tactic(auto, unfolding(mud_world::specs::Items::gone_put))]
fn put_of_gone_name(
    alloc: Global,
    change: &Change<KeptName, NameRow>,
) -> Result<Listed<Put>, Memory>
    ensures { IfOk result (λ puts. puts ≡ with_found (option_map (gone_put name_kind) change.now.gone) []) }
{
    let mut puts = Listed::new(alloc);
    match change.gone() {
        Some(name) => {
            let key = name.0.copy()?;
            puts.push(Put::Gone(NAME_KIND, key))?;
            Ok(puts)
        }
        None => Ok(puts),
    }
}

/// The puts of a change of names.
pub(crate) fn name_puts(
    alloc: Global,
    change: &Change<KeptName, NameRow>,
) -> Result<Listed<Put>, Memory>
    requires { All FitsName change.now.sets }
    ensures { IfOk result (λ puts. puts ≡ puts_of name_kind name_item change.now) }
{
    let mut puts = put_of_gone_name(alloc, change)?;
    for row in change.sets() {
        puts.push(Put::Set(name_item(alloc, row)?))?;
    }
    Ok(puts)
}
