//! What the lists of a Thing are made by.
ghost use Rattle.std.specs.Prelude.{◌≡◌, IfOk, option_map};
ghost use Rattle.base_rows.specs.Ledgers.{IsBlankOf};
ghost use Rattle.base_rows.specs.Sortable.{same_sort_key};
ghost use Rattle.table_model.specs.Things.{mac_of, thing_at};
ghost use Rattle.mud_desk.specs.DeskState.{tables_of};
ghost use Rattle.rule_export.specs.Resolved.{resolved_of, wanted};
ghost use Rattle.run_reports.specs.Export.Sources as spec;

use crate::export::lists::{ListName, family_of};
use acl_rows::RuleView;
use base_rows::{KeyOf, Steps};
use mud_base::{Direction, Listed, Mac, Memory, Moment, Prefix};
use mud_desk::Desk;
use mud_world::Keeper;
use rule_export::{Resolved, list_of};
use std::alloc::Global;
use std::cmp::Ordering;
use std::marker::{Brand, Model};
use std::sync::ledger::{Blank, Ledger};
use table_model::Thing;

/// What the lists of a Thing are made by: what a ruling on each side reads, the local networks, and
/// the moment.
#[derive(Drop)]
pub(crate) struct Sources<'a> {
    from: RuleView<'a>,
    to: RuleView<'a>,
    locals: &'a [Prefix],
    moment: Moment,
}

impl<'a> Model for Sources<'a> {
    ghost use Rattle.run_reports.specs.Export.Sources.{SourceParts, sources};

    ghost Value = { SourceParts };

    ghost view = { λ s. sources s.from s.to s.locals.now s.moment };
}

impl<'a> Sources<'a> {
    /// What a ruling reads on the side that a list is for.
    #[tactic(auto, unfolding(crate::specs::Export::Sources::view_for))]
    pub(crate) fn view_for(&self, name: ListName) -> &RuleView<'a>
        ensures { result.now ≡ spec.view_for self.now name }
    {
        match name {
            ListName::FromV4 | ListName::FromV6 => &self.from,
            ListName::ToV4 | ListName::ToV6 => &self.to,
        }
    }

    /// The items of a list, whose steps are counted for nobody.
    #[tactic(auto, unfolding(crate::specs::Export::Sources::source_items))]
    fn items_counted<L: Ledger>(
        &self,
        alloc: Global,
        name: ListName,
        blank: Blank,
    ) -> Result<Listed<Resolved>, Memory>
        requires blank { IsBlankOf L.name L.parts blank }
        ensures { IfOk result (λ items. items ≡ spec.source_items self.now name) }
    {
        let mut steps = Steps::<L>::new(blank);
        let view = self.view_for(name);
        list_of(
            alloc,
            view,
            self.locals,
            family_of(name),
            self.moment,
            &mut steps,
        )
    }

    /// The items of a list.
    pub(crate) fn items(&self, alloc: Global, name: ListName) -> Result<Listed<Resolved>, Memory>
        ensures { IfOk result (λ items. items ≡ spec.source_items self.now name) }
    {
        self.items_counted::<Brand>(alloc, name, Blank::new(1))
    }
}

/// Whether a Thing has this hardware address.
fn is_of(thing: &Thing, mac: Mac) -> bool
    ensures { result ≡ same_sort_key (mac_of thing.now) mac.0 }
{
    match mac.order_to(thing) {
        Ordering::Less => false,
        Ordering::Equal => true,
        Ordering::Greater => false,
    }
}

/// Whether the operator holds the Thing of a hardware address, where there is one.
#[tactic(auto, unfolding(crate::specs::Export::Sources::is_held))]
pub(crate) fn held_of(things: &[Thing], mac: Mac) -> Option<bool>
    ensures { result ≡ option_map spec.is_held (thing_at mac things.now) }
{
    'things: for thing in things {
        if is_of(thing, mac) {
            return Some(thing.held);
        }
    }
    None
}

/// What the lists of the Thing of a hardware address are made by at a moment, where there is one.
pub(crate) fn sources_of<'a, K: Keeper>(
    desk: &'a Desk<K>,
    mac: Mac,
    moment: Moment,
) -> Option<Sources<'a>>
    ensures { spec.AreSourcesOf (tables_of desk.now.state) moment (thing_at mac (tables_of desk.now.state).tables.things) result }
{
    let Some(from) = desk.rules(mac, Direction::From) else {
        return None;
    };
    let Some(to) = desk.rules(mac, Direction::To) else {
        drop(from);
        return None;
    };
    Some(Sources {
        from,
        to,
        locals: desk.locals(),
        moment,
    })
}
