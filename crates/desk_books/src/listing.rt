//! The bindings of the rows of a desk.
ghost use Rattle.std.specs.Prelude.{◌≡◌, ◌++◌, ◌∷◌, [], IfOk, OnOk};
ghost use Rattle.table_model.specs.Bindings as spec;

use acl_model::{Binding, MemberKey};
use mud_base::{Addr, Bytes, End, Listed, Memory};
use std::alloc::Global;
use table_model::{Class, ClassRow, NameRow, Thing};

/// Adds the two bindings of a lease: to the host and to the URL of its Thing.
#[tactic(auto, unfolding(table_model::specs::Bindings::bindings_of_lease))]
fn add_lease(
    alloc: Global,
    list: &mut Listed<Binding>,
    thing: &Thing,
    row: (Addr, End),
) -> Result<(), Memory>
    ensures { OnOk result (list.new ≡ list.old ++ spec.bindings_of_lease thing.now row) }
{
    let (addr, until) = row;
    let host = Bytes::new(alloc, thing.url.host())?;
    let url = Bytes::new(alloc, thing.url.text())?;
    list.push(Binding {
        key: MemberKey::Host(host),
        addr,
        until,
    })?;
    list.push(Binding {
        key: MemberKey::Model(url),
        addr,
        until,
    })?;
    Ok(())
}

/// Adds the bindings of a Thing.
#[tactic(auto, unfolding(table_model::specs::Bindings::thing_bindings))]
fn add_thing(alloc: Global, list: &mut Listed<Binding>, thing: &Thing) -> Result<(), Memory>
    ensures { OnOk result (list.new ≡ list.old ++ spec.thing_bindings thing.now) }
{
    for row in thing.leases.as_slice() {
        add_lease(alloc, list, thing, *row)?;
    }
    Ok(())
}

/// Adds the bindings of Things.
#[tactic(auto, unfolding(table_model::specs::Bindings::things_bindings))]
fn add_things(alloc: Global, list: &mut Listed<Binding>, things: &[Thing]) -> Result<(), Memory>
    ensures { OnOk result (list.new ≡ list.old ++ spec.things_bindings things.now) }
{
    for thing in things {
        add_thing(alloc, list, thing)?;
    }
    Ok(())
}

/// What an address of a class is bound to.
#[tactic(auto, unfolding(table_model::specs::Bindings::member_key))]
fn member_key(alloc: Global, class: &Class) -> Result<MemberKey, Memory>
    ensures { IfOk result (λ key. key ≡ spec.member_key class.now) }
{
    match class {
        Class::Uri(uri) => Ok(MemberKey::Class(uri.copy()?)),
        Class::Mine(url) => Ok(MemberKey::Mine(Bytes::new(alloc, url.text())?)),
    }
}

/// Adds the binding of an address of a class, which never expires.
#[tactic(auto, unfolding(table_model::specs::Bindings::class_binding))]
fn add_class_address(
    alloc: Global,
    list: &mut Listed<Binding>,
    row: &ClassRow,
    addr: Addr,
) -> Result<(), Memory>
    ensures { OnOk result (list.new ≡ list.old ++ spec.class_binding row.now addr ∷ []) }
{
    let key = member_key(alloc, &row.class)?;
    list.push(Binding {
        key,
        addr,
        until: End(End::NEVER),
    })?;
    Ok(())
}

/// Adds the bindings of a class.
#[tactic(auto, unfolding(table_model::specs::Bindings::class_bindings))]
fn add_class(alloc: Global, list: &mut Listed<Binding>, row: &ClassRow) -> Result<(), Memory>
    ensures { OnOk result (list.new ≡ list.old ++ spec.class_bindings row.now) }
{
    for addr in row.addrs.as_slice() {
        add_class_address(alloc, list, row, *addr)?;
    }
    Ok(())
}

/// Adds the bindings of classes.
#[tactic(auto, unfolding(table_model::specs::Bindings::classes_bindings))]
fn add_classes(
    alloc: Global,
    list: &mut Listed<Binding>,
    classes: &[ClassRow],
) -> Result<(), Memory>
    ensures { OnOk result (list.new ≡ list.old ++ spec.classes_bindings classes.now) }
{
    for row in classes {
        add_class(alloc, list, row)?;
    }
    Ok(())
}

/// Adds the binding of an address of a name.
#[tactic(auto, unfolding(table_model::specs::Bindings::name_binding))]
fn add_name_address(
    list: &mut Listed<Binding>,
    row: &NameRow,
    address: (Addr, End),
) -> Result<(), Memory>
    ensures { OnOk result (list.new ≡ list.old ++ spec.name_binding row.now address ∷ []) }
{
    let (addr, until) = address;
    let key = MemberKey::Name(row.name.copy()?);
    list.push(Binding { key, addr, until })?;
    Ok(())
}

/// Adds the bindings of a name.
#[tactic(auto, unfolding(table_model::specs::Bindings::name_bindings))]
fn add_name(list: &mut Listed<Binding>, row: &NameRow) -> Result<(), Memory>
    ensures { OnOk result (list.new ≡ list.old ++ spec.name_bindings row.now) }
{
    for address in row.addrs.as_slice() {
        add_name_address(list, row, *address)?;
    }
    Ok(())
}

/// Adds the bindings of names.
#[tactic(auto, unfolding(table_model::specs::Bindings::names_bindings))]
fn add_names(list: &mut Listed<Binding>, names: &[NameRow]) -> Result<(), Memory>
    ensures { OnOk result (list.new ≡ list.old ++ spec.names_bindings names.now) }
{
    for row in names {
        add_name(list, row)?;
    }
    Ok(())
}

/// The bindings of the leases, of the classes and of the names.
pub(crate) fn list_bindings(
    alloc: Global,
    things: &[Thing],
    classes: &[ClassRow],
    names: &[NameRow],
) -> Result<Listed<Binding>, Memory>
    ensures { IfOk result (λ list. list ≡ spec.things_bindings things.now ++ spec.classes_bindings classes.now ++ spec.names_bindings names.now) }
{
    let mut list = Listed::new(alloc);
    add_things(alloc, &mut list, things)?;
    add_classes(alloc, &mut list, classes)?;
    add_names(&mut list, names)?;
    Ok(list)
}
