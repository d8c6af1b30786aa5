//! What judges a frame at a moment.
ghost use Rattle.std.specs.Prelude.{IsTrue};
ghost use Rattle.flow_table.specs.Noted.{follows};

use acl_compile::Compiled;
use base_rows::Steps;
use flow_table::FlowTable;
use frame_view::PacketView;
use mud_base::{Direction, Mac, Moment, Prefix};
use packet_judge::{RuleSource, Ruling, rule};
use std::sync::ledger::Ledger;
use table_model::Thing;
use thing_book::ThingBook;

/// It knows the Things, what is compiled, the local networks and the connections, and rules at one
/// moment, which isn't before that of the last packet noted.
#[derive(Drop)]
pub(crate) struct DeskRules<'a> {
    pub(crate) things: &'a ThingBook,
    pub(crate) compiled: &'a Compiled,
    pub(crate) locals: &'a [Prefix],
    pub(crate) flows: &'a FlowTable,
    pub(crate) now: Moment,
    ghost since: { IsTrue (follows flows.now.history now) },
}

impl<'a> RuleSource for DeskRules<'a> {
    ghost use Rattle.std.specs.Prelude.{◌<◌, ◌^◌, length};
    ghost use Rattle.mud_desk.specs.RuleInputs.{rule_inputs, ruling_on, rows_read, ruling_steps};

    ghost things = { λ o. o.things.now.things };

    ghost ruling = { λ o side thing fields. ruling_on (rule_inputs o.things.now.things o.compiled.now o.locals.now o.flows.now.history) o.now side thing fields };

    ghost least = { λ o side thing fields. rows_read o.compiled.now side thing fields };

    ghost fits = { λ o b. length o.compiled.now.rows < 2 ^ b };

    ghost most = { λ o b side thing fields. ruling_steps o.compiled.now b side thing fields };

    fn thing(&self, mac: Mac) -> Option<&Thing> {
        self.things.thing_at(mac)
    }

    fn rule<L: Ledger>(
        &self,
        side: Direction,
        thing: &Thing,
        packet: &PacketView<'_>,
        steps: &mut Steps<L>,
    ) -> Ruling {
        let begun = self.flows.begun(side, &packet.fields(), self.now);
        let view = self.compiled.view(&thing.url, side);
        rule(view, packet, begun, self.locals, self.now, steps)
    }
}
