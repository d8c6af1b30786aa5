//! The ruling on a packet of a Thing.
ghost use Rattle.std.specs.Prelude.{◌≡◌, ℕ, ◌+◌, ◌^◌, ◌<◌, ◌≤◌, List, Option, Some};
ghost use Rattle.mud_base.specs.declared.packet.Direction.{Direction as Side};
ghost use Rattle.acl_model.specs.declared.binding.Binding.{Binding};
ghost use Rattle.acl_model.specs.declared.entry.Policy.{Policy};
ghost use Rattle.acl_model.specs.declared.ruling.Ruling.{Ruling as RulingValue};
ghost use Rattle.acl_model.specs.Changes.{HaveSame};
ghost use Rattle.acl_rows.specs.Rows.{Slots};
ghost use Rattle.table_model.specs.Bindings.{bindings_of, ruling_by_bindings};
ghost use Rattle.table_model.specs.Tables.{Tables, ruling_of};
ghost use Rattle.packet_judge.specs.ByRows as by;
ghost use Rattle.packet_judge.specs.RuleSteps as count;

use crate::question::Question;
use acl_model::{Action, DefaultRule, Ruling, Why};
use acl_rows::{RulePart, RuleView};
use base_rows::Steps;
use frame_view::PacketView;
use mud_base::{Direction, Moment, Prefix};
use std::sync::ledger::Ledger;

/// The ruling of the entry of a number.
#[tactic(auto, unfolding(crate::specs::ByRows::ruling_at, acl_model::specs::FirstMatch::ruled_by, acl_rows::specs::Rows::entry_at))]
fn entry_ruling(part: &RulePart<'_>, n: u16) -> Ruling
    ensures { (otherwise : RulingValue) → result ≡ by.ruling_at part.now.entries otherwise (Some n) }
{
    if n == 0 || n > part.count() {
        return Ruling::DropDefault(Why::NoMatch);
    }
    match part.entry(n).action {
        Action::Accept => Ruling::Accept(n),
        Action::Drop => Ruling::Drop(n),
    }
}

/// The ruling of the default entries.
#[tactic(auto, unfolding(crate::specs::ByRows::default_at, crate::specs::RuleSteps::part_least))]
fn default_ruling<L: Ledger>(
    question: &Question<'_>,
    part: &RulePart<'_>,
    why: Why,
    steps: &mut Steps<L>,
) -> Ruling
    ensures value { result ≡ by.default_at why (by.first_in question.now part.now) }
    ensures least { steps.old + count.part_least question.now part.now ≤ steps.new }
    ensures most { (b : ℕ) → part.now.among < 2 ^ b → steps.new ≤ steps.old + count.part_steps question.now b part.now }
{
    match question.first_in(part, steps) {
        None | Some(0) => Ruling::DropDefault(why),
        Some(1) => Ruling::AcceptDefault(DefaultRule::Dns),
        Some(_) => Ruling::AcceptDefault(DefaultRule::Ntp),
    }
}

/// The ruling by the rows of a view: that of the file's first entry, and else that of the defaults.
#[tactic(auto, unfolding(crate::specs::ByRows::ruling_by_rows, crate::specs::ByRows::ruling_in, crate::specs::ByRows::ruling_at, crate::specs::RuleSteps::file_rows, crate::specs::RuleSteps::file_tested, crate::specs::RuleSteps::least_steps, crate::specs::RuleSteps::default_least, crate::specs::RuleSteps::least_behind, crate::specs::RuleSteps::file_steps))]
fn rule_by_rows<L: Ledger>(
    view: &RuleView<'_>,
    question: &Question<'_>,
    steps: &mut Steps<L>,
) -> Ruling
    ensures value { result ≡ by.ruling_by_rows question.now view.now }
    ensures least { steps.old + count.least_steps question.now view.now + count.file_tested question.now view.now.file ≤ steps.new }
    ensures defaults { steps.old + count.least_steps question.now view.now + count.file_tested question.now view.now.file
        + count.default_least question.now view.now ≤ steps.new }
    ensures most { (b : ℕ) → count.FitsRows b view.now → steps.new ≤ steps.old + count.most_steps question.now b view.now }
{
    match view.file() {
        None => default_ruling(question, view.defaults(), Why::NoFile, steps),
        Some(part) => match question.first_in(part, steps) {
            Some(n) => entry_ruling(part, n),
            None => default_ruling(question, view.defaults(), Why::NoMatch, steps),
        },
    }
}

/// The ruling on a packet of a Thing on the view's side, where `begun` is the side that began the
/// packet's connection and `locals` are the local networks: that of the first entry which matches
/// (RFC 8519, section 3), of the file and then of the defaults (RFC 8520, Appendix A). It takes no
/// memory.
pub fn rule<L: Ledger>(
    view: RuleView<'_>,
    packet: &PacketView<'_>,
    begun: Option<Direction>,
    locals: &[Prefix],
    now: Moment,
    steps: &mut Steps<L>,
) -> Ruling
    // On the view of a URL over the rows of policies and bindings it is the ruling by these
    // bindings, of which some may have ended.
    ensures rules { (slots : Slots) (bindings : List Binding) (url : List ℕ) (policy : Option Policy)
        (side : Side) → by.IsViewOver slots bindings url policy side view.entry
        → result ≡ ruling_by_bindings bindings locals.now now url policy side packet.now.fields begun }
    // Where these are the bindings of tables, and the local networks theirs, it is the ruling over
    // the tables.
    ensures tables { (slots : Slots) (bindings : List Binding) (tables : Tables) (url : List ℕ)
        (policy : Option Policy) (side : Side)
        → by.IsViewOver slots bindings url policy side view.entry
        → HaveSame bindings (bindings_of tables) → locals.now ≡ tables.locals
        → result ≡ ruling_of tables now url policy side packet.now.fields begun }
    // Each row of the peer that the file has is one step.
    ensures least { steps.old + count.least_steps (by.asked locals.now now packet.now.fields begun) view.entry ≤ steps.new }
    // So is each wide entry of the file that is tested, up to the first that passes.
    ensures tested { steps.old + count.least_steps (by.asked locals.now now packet.now.fields begun) view.entry
        + count.file_tested (by.asked locals.now now packet.now.fields begun) view.entry.file ≤ steps.new }
    // Where no entry of the file rules, the rows of the peer and the tested wide entries of the
    // defaults come to these.
    ensures defaults { steps.old + count.least_steps (by.asked locals.now now packet.now.fields begun) view.entry
        + count.file_tested (by.asked locals.now now packet.now.fields begun) view.entry.file
        + count.default_least (by.asked locals.now now packet.now.fields begun) view.entry ≤ steps.new }
    // There is no step more than the rows of the peer, of the file and of the defaults, the binary
    // digits of the numbers of rows among which they are found, and the wide entries.
    ensures most { (b : ℕ) → count.FitsRows b view.entry
        → steps.new ≤ steps.old + count.most_steps (by.asked locals.now now packet.now.fields begun) b view.entry }
{
    let _seconds = now.seconds();
    let question = Question::new(locals, now, packet.fields(), begun);
    rule_by_rows(&view, &question, steps)
}
