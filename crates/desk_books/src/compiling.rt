//! The policies, bindings and rows of a desk's lists.
ghost use Rattle.std.specs.Prelude.{◌≡◌, ◌<◌, [], IfOk, OnOk};
ghost use Rattle.base_rows.specs.Ledgers.{IsBlankOf};
ghost use Rattle.base_rows.specs.Sortable.{set_rows};
ghost use Rattle.acl_model.specs.SortKeys.{binding_sort_key};
ghost use Rattle.acl_compile.specs.Compiled.{HasItsRows};
ghost use Rattle.acl_compile.specs.Plans.{others_held};
ghost use Rattle.usage_tables.specs.Files.{IsSoundFiles};
ghost use Rattle.desk_model.specs.DeskTables.{DeskTables, IsSound};
ghost use Rattle.desk_books.specs.CompiledDesk.{IsCompiledOf};
ghost use Rattle.desk_books.specs.Policies.{AddsPolicy, HasPolicies};

use crate::listing::list_bindings;
use acl_compile::Compiled;
use acl_model::Binding;
use base_rows::Steps;
use mud_base::Memory;
use std::alloc::Global;
use std::marker::Brand;
use std::sync::ledger::{Blank, Ledger};
use table_model::{ClassRow, NameRow, Thing};
use usage_tables::CachedFile;

/// The policies of the approved files, the bindings of the leases, classes and names, and the rows
/// that follow from them, where these are the lists of a desk. Nothing but memory is wanting. The
/// steps that it takes are counted for nobody.
pub fn compile(
    alloc: Global,
    things: &[Thing],
    classes: &[ClassRow],
    names: &[NameRow],
    files: &[CachedFile],
) -> Result<Compiled, Memory>
    requires { IsSoundFiles files.now }
    ensures { IfOk result (λ compiled. (desk : DeskTables) → IsSound desk
        → desk.tables.things ≡ things.now → desk.tables.classes ≡ classes.now
        → desk.tables.names ≡ names.now → desk.files ≡ files.now
        → IsCompiledOf desk compiled) }
{
    compile_counted::<Brand>(alloc, things, classes, names, files, Blank::new(1))
}

/// The same, with its steps counted on the ledger of the blank.
fn compile_counted<L: Ledger>(
    alloc: Global,
    things: &[Thing],
    classes: &[ClassRow],
    names: &[NameRow],
    files: &[CachedFile],
    blank: Blank,
) -> Result<Compiled, Memory>
    requires blank { IsBlankOf L.name L.parts blank }
    requires files { IsSoundFiles files.now }
    ensures { IfOk result (λ compiled. (desk : DeskTables) → IsSound desk
        → desk.tables.things ≡ things.now → desk.tables.classes ≡ classes.now
        → desk.tables.names ≡ names.now → desk.files ≡ files.now
        → IsCompiledOf desk compiled) }
{
    let mut steps = Steps::<L>::new(blank);
    let come = list_bindings(alloc, things, classes, names)?;
    let bound = bind(alloc, come.as_slice(), &mut steps);
    drop(come);
    let mut compiled = bound?;
    match add_policies(&mut compiled, files, &mut steps) {
        Ok(()) => Ok(compiled),
        Err(memory) => {
            drop(compiled);
            Err(memory)
        }
    }
}

/// No policies, these bindings, and the rows of the default entries.
fn bind<L: Ledger>(
    alloc: Global,
    come: &[Binding],
    steps: &mut Steps<L>,
) -> Result<Compiled, Memory>
    ensures slots { IfOk result (λ compiled. compiled.slots ≡ []) }
    ensures bindings { IfOk result (λ compiled. compiled.bindings ≡ set_rows binding_sort_key come.now []) }
    ensures kept { IfOk result HasItsRows }
{
    let mut compiled = Compiled::new(alloc)?;
    match compiled.plan_member(&[], come, steps) {
        Ok(plan) => {
            compiled.commit(plan, steps);
            Ok(compiled)
        }
        Err(memory) => {
            drop(compiled);
            Err(memory)
        }
    }
}

/// Adds the policies of the approved files, where none is held yet.
fn add_policies<L: Ledger>(
    compiled: &mut Compiled,
    files: &[CachedFile],
    steps: &mut Steps<L>,
) -> Result<(), Memory>
    requires none { compiled.old.slots ≡ [] }
    requires kept { HasItsRows compiled.old }
    requires sound { IsSoundFiles files.now }
    ensures { OnOk result (HasPolicies files.now compiled.old compiled.new) }
{
    for row in files {
        add_policy(compiled, row, steps)?;
    }
    Ok(())
}

/// Adds the policy of the approved file of a URL, where one is approved.
fn add_policy<L: Ledger>(
    compiled: &mut Compiled,
    row: &CachedFile,
    steps: &mut Steps<L>,
) -> Result<(), Memory>
    requires others { others_held row.now.url compiled.old.slots < 128 }
    requires kept { HasItsRows compiled.old }
    ensures { OnOk result (AddsPolicy row.now compiled.old compiled.new) }
{
    let Some((held, _)) = &row.approved else {
        return Ok(());
    };
    let plan = compiled.plan_policy(&row.url, Some(&held.file().policy), steps)?;
    compiled.commit(plan, steps);
    Ok(())
}
