//! Rows that bind addresses: Things, classes and names.
ghost use Rattle.std.specs.Prelude.{◌≡◌, ◌++◌, List, map, OnOk};
ghost use Rattle.acl_model.specs.declared.binding.Binding.{Binding as BindingValue};
ghost use Rattle.table_model.specs.Bindings.{member_key, thing_bindings, class_bindings, name_bindings};
ghost use Rattle.table_laws.specs.Lent.{lent_key, lent_binding};

use crate::lent::{LentBinding, LentKey};
use base_rows::Sortable;
use mud_base::{End, Listed, Memory};
use table_model::{Class, ClassRow, NameRow, Thing};

/// A row that binds addresses.
pub trait BindingRow: Sortable {
    /// Its bindings.
    ghost bindings: { Self → List BindingValue };

    /// Adds its bindings to a list, at the end. Without memory for all of them some may have been
    /// added.
    fn add_bindings<'a>(&'a self, list: &mut Listed<LentBinding<'a>>) -> Result<(), Memory>
        ensures { OnOk result (map lent_binding list.new ≡ map lent_binding list.old ++ bindings self.now) };
}

/// What an address of a class is bound to.
#[tactic(auto, unfolding(crate::specs::Lent::lent_key, table_model::specs::Bindings::member_key))]
fn class_key(class: &Class) -> LentKey<'_>
    ensures { lent_key result ≡ member_key class.now }
{
    match class {
        Class::Uri(uri) => LentKey::Class(uri.octets()),
        Class::Mine(url) => LentKey::Mine(url),
    }
}

impl BindingRow for Thing {
    ghost bindings = { thing_bindings };

    #[tactic(auto, unfolding(crate::specs::Lent::lent_key, crate::specs::Lent::lent_binding, table_model::specs::Bindings::thing_bindings, table_model::specs::Bindings::bindings_of_lease))]
    fn add_bindings<'a>(&'a self, list: &mut Listed<LentBinding<'a>>) -> Result<(), Memory> {
        let host = LentKey::Host(self.url.host());
        let model = LentKey::Model(&self.url);
        for row in self.leases.as_slice() {
            let (addr, until) = *row;
            list.push(LentBinding {
                key: host,
                addr,
                until,
            })?;
            list.push(LentBinding {
                key: model,
                addr,
                until,
            })?;
        }
        Ok(())
    }
}

impl BindingRow for ClassRow {
    ghost bindings = { class_bindings };

    #[tactic(auto, unfolding(crate::specs::Lent::lent_binding, table_model::specs::Bindings::class_bindings, table_model::specs::Bindings::class_binding))]
    fn add_bindings<'a>(&'a self, list: &mut Listed<LentBinding<'a>>) -> Result<(), Memory> {
        let key = class_key(&self.class);
        for addr in self.addrs.as_slice() {
            list.push(LentBinding {
                key,
                addr: *addr,
                until: End(End::NEVER),
            })?;
        }
        Ok(())
    }
}

impl BindingRow for NameRow {
    ghost bindings = { name_bindings };

    #[tactic(auto, unfolding(crate::specs::Lent::lent_key, crate::specs::Lent::lent_binding, table_model::specs::Bindings::name_bindings, table_model::specs::Bindings::name_binding))]
    fn add_bindings<'a>(&'a self, list: &mut Listed<LentBinding<'a>>) -> Result<(), Memory> {
        let key = LentKey::Name(self.name.octets());
        for row in self.addrs.as_slice() {
            let (addr, until) = *row;
            list.push(LentBinding { key, addr, until })?;
        }
        Ok(())
    }
}
