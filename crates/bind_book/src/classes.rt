//! The rows that the commands on classes change.
ghost use Rattle.std.specs.Prelude.{◌≡◌, [], ◌∷◌, IfOk, IfErr};
ghost use Rattle.table_model.specs.Binds.{class_row};
ghost use Rattle.table_model.specs.BindCommands.{bind_step, unbind_step};
ghost use Rattle.table_model.specs.BindRowChanges.{one_row, class_left};
ghost use Rattle.bind_book.specs.Book.{IsRefusal};
ghost use Rattle.bind_book.specs.Plans.{IsBindRows, IsUnbindRows};

use base_rows::{Change, SortedRows};
use mud_base::{Addr, Listed, Memory};
use std::alloc::Global;
use table_model::addrs::{has_addr, with_addr, without_addr};
use table_model::limits::{MOST_CLASS_ADDRESSES, MOST_CLASSES};
use table_model::{BindFault, Class, ClassRow};

/// A change of classes.
pub type ClassChange = Change<Class, ClassRow>;

/// The change by which a class gets these addresses.
#[tactic(auto, unfolding(table_model::specs::Binds::class_row))]
fn class_with(alloc: Global, class: &Class, addrs: Listed<Addr>) -> Result<ClassChange, Memory>
    ensures { IfOk result (λ change. change ≡ one_row (class_row class.now addrs)) }
{
    let class = class.copy()?;
    let mut rows = Listed::new(alloc);
    rows.push(ClassRow { class, addrs })?;
    Ok(Change::new(None, rows))
}

/// The change by which a class goes.
fn class_gone(alloc: Global, class: &Class) -> Result<ClassChange, Memory>
    ensures { IfOk result (λ change. change ≡ class_left class.now []) }
{
    let class = class.copy()?;
    Ok(Change::new(Some(class), Listed::new(alloc)))
}

/// The change by which a class that isn't kept gets its first address.
fn first_address(alloc: Global, class: &Class, addr: Addr) -> Result<ClassChange, Memory>
    ensures { IfOk result (λ change. change ≡ one_row (class_row class.now (addr ∷ []))) }
{
    let mut addrs = Listed::new(alloc);
    addrs.push(addr)?;
    class_with(alloc, class, addrs)
}

/// The change by which a class gets an address; None where it has it already.
#[tactic(auto, unfolding(table_model::specs::BindCommands::bind_step, table_model::specs::BindRowChanges::bind_change, table_model::specs::BindRowChanges::bind_cases_change, table_model::specs::Binds::class_at))]
pub(crate) fn bind_rows(
    alloc: Global,
    class: &Class,
    addr: Addr,
    classes: &SortedRows<ClassRow>,
) -> Result<Option<ClassChange>, BindFault>
    ensures ok { IfOk result (IsBindRows class.now addr classes.now.rows) }
    ensures err { IfErr result (IsRefusal (bind_step class.now addr classes.now.rows)) }
{
    let Some(row) = classes.get(class) else {
        if classes.len() >= MOST_CLASSES {
            return Err(BindFault::ClassesFull);
        }
        return Ok(Some(first_address(alloc, class, addr)?));
    };
    let addrs = row.addrs.as_slice();
    if has_addr(addr, addrs) {
        return Ok(None);
    }
    if addrs.len() >= MOST_CLASS_ADDRESSES {
        return Err(BindFault::ClassFull);
    }
    let addrs = with_addr(alloc, addr, addrs)?;
    Ok(Some(class_with(alloc, class, addrs)?))
}

/// The change that leaves a class these addresses, or takes it away where there are none.
#[tactic(auto, unfolding(table_model::specs::BindRowChanges::class_left))]
fn left_with(alloc: Global, class: &Class, addrs: Listed<Addr>) -> Result<ClassChange, Memory>
    ensures { IfOk result (λ change. change ≡ class_left class.now addrs) }
{
    if addrs.len() == 0 {
        class_gone(alloc, class)
    } else {
        class_with(alloc, class, addrs)
    }
}

/// The change by which an address leaves a class. A class with no address left goes.
#[tactic(auto, unfolding(table_model::specs::BindCommands::unbind_step, table_model::specs::BindRowChanges::unbind_change, table_model::specs::BindRowChanges::unbind_cases_change, table_model::specs::Binds::class_at))]
pub(crate) fn unbind_rows(
    alloc: Global,
    class: &Class,
    addr: Addr,
    classes: &SortedRows<ClassRow>,
) -> Result<ClassChange, BindFault>
    ensures ok { IfOk result (IsUnbindRows class.now addr classes.now.rows) }
    ensures err { IfErr result (IsRefusal (unbind_step class.now addr classes.now.rows)) }
{
    let Some(row) = classes.get(class) else {
        return Err(BindFault::NotBound);
    };
    let addrs = row.addrs.as_slice();
    if !has_addr(addr, addrs) {
        return Err(BindFault::NotBound);
    }
    let addrs = without_addr(alloc, addr, addrs)?;
    Ok(left_with(alloc, class, addrs)?)
}
