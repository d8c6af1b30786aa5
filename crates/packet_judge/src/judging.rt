//! Judging a frame.
ghost use Rattle.std.specs.Prelude.{◌≡◌, ℕ, ◌+◌, ◌≤◌, List, Option, option_copied, slice_index_or, ◌==◌, ◌%◌};
ghost use Rattle.mud_base.specs.declared.packet.Direction.{Direction as Side};
ghost use Rattle.mud_base.specs.declared.packet.Fields.{Fields as FieldsValue};
ghost use Rattle.acl_model.specs.declared.ruling.Ruling.{Ruling as RulingValue};
ghost use Rattle.table_model.specs.declared.thing.Thing.{Thing as ThingValue};
ghost use Rattle.table_model.specs.Things.{thing_at};
ghost use Rattle.packet_judge.specs.Verdicts as spec;

use crate::verdict::Verdict;
use acl_model::Ruling;
use base_rows::Steps;
use frame_view::{Frame, FrameView, PacketView};
use mud_base::{Direction, Mac};
use std::sync::ledger::Ledger;
use table_model::Thing;

/// What knows the Things and rules on their packets.
pub trait RuleSource {
    /// The Things.
    ghost things: { Self → List ThingValue };

    /// The ruling on a packet with these fields of a Thing on this side that isn't held.
    ghost ruling: { Self → Side → ThingValue → FieldsValue → RulingValue };

    /// The least number of steps that such a ruling takes.
    ghost least: { Self → Side → ThingValue → FieldsValue → ℕ };

    /// The numbers of rows among which a ruling searches have no more binary digits than these.
    ghost fits: { Self → ℕ → Type 0 };

    /// With so many binary digits, the greatest number of steps that such a ruling takes.
    ghost most: { Self → ℕ → Side → ThingValue → FieldsValue → ℕ };

    /// The Thing with this hardware address.
    fn thing(&self, mac: Mac) -> Option<&Thing>
        ensures { option_copied result ≡ thing_at mac (things self.now) };

    /// The ruling on a packet of a Thing on this side. It takes no memory.
    fn rule<L: Ledger>(
        &self,
        side: Direction,
        thing: &Thing,
        packet: &PacketView<'_>,
        steps: &mut Steps<L>,
    ) -> Ruling
        ensures value { result ≡ ruling self.now side thing.now packet.now.fields }
        ensures least { steps.old + least self.now side thing.now packet.now.fields ≤ steps.new }
        ensures most { (b : ℕ) → fits self.now b → steps.new ≤ steps.old + most self.now b side thing.now packet.now.fields };
}

/// Whether the address is one of a group: the bit that is sent first, the least of the first octet,
/// is 1 (IEEE 802, 8.2.2).
#[tactic(auto)]
fn is_group(mac: Mac) -> bool
    ensures { result ≡ slice_index_or mac.0 0 0 % 2 == 1 }
{
    mac.0[0] % 2 == 1
}

/// The Thing that sent a frame.
#[tactic(auto, unfolding(crate::specs::Verdicts::endpoints_of))]
fn source_thing<'a, A: RuleSource>(rules: &'a A, frame: &FrameView<'_>) -> Option<&'a Thing>
    ensures { option_copied result ≡ (spec.endpoints_of (A.things rules.now) frame.now).source }
{
    rules.thing(frame.source())
}

/// The Thing that a frame is for; None where it is for a group.
#[tactic(auto, unfolding(table_model::specs::Tables::destination_thing, crate::specs::Verdicts::endpoints_of))]
fn destination_thing<'a, A: RuleSource>(rules: &'a A, frame: &FrameView<'_>) -> Option<&'a Thing>
    ensures { option_copied result ≡ (spec.endpoints_of (A.things rules.now) frame.now).destination }
{
    let destination = frame.destination();
    if is_group(destination) {
        return None;
    }
    rules.thing(destination)
}

/// Whether one of the frame's endpoints is a Thing.
#[tactic(auto, unfolding(crate::specs::Verdicts::is_managed))]
fn is_managed<A: RuleSource>(rules: &A, frame: &FrameView<'_>) -> bool
    ensures { result ≡ spec.is_managed (spec.endpoints_of (A.things rules.now) frame.now) }
{
    source_thing(rules, frame).is_some() || destination_thing(rules, frame).is_some()
}

/// The ruling of one endpoint of a packet; None where it is no Thing. For a Thing that is held no
/// ruling is taken.
#[tactic(auto, unfolding(crate::specs::Verdicts::endpoint_ruling, crate::specs::Verdicts::endpoint_steps))]
fn endpoint_ruling<A: RuleSource, L: Ledger>(
    rules: &A,
    side: Direction,
    thing: Option<&Thing>,
    packet: &PacketView<'_>,
    steps: &mut Steps<L>,
) -> Option<Ruling>
    ensures value { result ≡ spec.endpoint_ruling (A.ruling rules.now) side packet.now.fields (option_copied thing.entry) }
    ensures least { steps.old + spec.endpoint_steps (A.least rules.now) side packet.now.fields (option_copied thing.entry) ≤ steps.new }
    ensures most { (b : ℕ) → A.fits rules.now b → steps.new ≤ steps.old + spec.endpoint_steps (A.most rules.now b) side packet.now.fields (option_copied thing.entry) }
{
    let thing = thing?;
    if thing.held {
        return Some(Ruling::DropHeld);
    }
    Some(rules.rule(side, thing, packet, steps))
}

/// The verdict on a frame that carries a packet.
#[tactic(auto, unfolding(crate::specs::Verdicts::verdict_on, crate::specs::Verdicts::if_managed, crate::specs::Verdicts::is_managed, crate::specs::Verdicts::steps_on, crate::specs::Verdicts::endpoint_steps))]
#[inline(always)]
fn judge_packet<A: RuleSource, L: Ledger>(
    packet: &PacketView<'_>,
    rules: &A,
    steps: &mut Steps<L>,
) -> Verdict
    ensures verdict { result ≡ spec.verdict_on (A.ruling rules.now) (A.things rules.now) (Frame.Packet packet.now) }
    ensures least { steps.old + spec.steps_on (A.least rules.now) (A.things rules.now) (Frame.Packet packet.now) ≤ steps.new }
    ensures most { (b : ℕ) → A.fits rules.now b → steps.new ≤ steps.old + spec.steps_on (A.most rules.now b) (A.things rules.now) (Frame.Packet packet.now) }
{
    let frame = packet.frame();
    let source = source_thing(rules, &frame);
    let destination = destination_thing(rules, &frame);
    match (source, destination) {
        (None, None) => Verdict::Unmanaged,
        (source, destination) => {
            let source = endpoint_ruling(rules, Direction::From, source, packet, steps);
            let destination = endpoint_ruling(rules, Direction::To, destination, packet, steps);
            Verdict::Governed(source, destination)
        }
    }
}

/// The verdict on a frame. Its steps are those of the rulings that the verdict takes: one for each
/// endpoint of a packet that is a Thing and isn't held. It takes no memory.
#[tactic(auto, unfolding(crate::specs::Verdicts::verdict_on, crate::specs::Verdicts::if_managed, crate::specs::Verdicts::steps_on))]
#[inline(always)]
pub fn judge<A: RuleSource, L: Ledger>(
    frame: &Frame<'_>,
    rules: &A,
    steps: &mut Steps<L>,
) -> Verdict
    ensures verdict { result ≡ spec.verdict_on (A.ruling rules.now) (A.things rules.now) frame.now }
    ensures least { steps.old + spec.steps_on (A.least rules.now) (A.things rules.now) frame.now ≤ steps.new }
    ensures most { (b : ℕ) → A.fits rules.now b → steps.new ≤ steps.old + spec.steps_on (A.most rules.now b) (A.things rules.now) frame.now }
{
    match frame {
        Frame::Unreadable(None, part) => Verdict::Unreadable(*part),
        Frame::Unreadable(Some(head), part) => {
            if is_managed(rules, head) {
                Verdict::Unreadable(*part)
            } else {
                Verdict::Unmanaged
            }
        }
        Frame::Link(head) => {
            if is_managed(rules, head) {
                Verdict::Link
            } else {
                Verdict::Unmanaged
            }
        }
        Frame::Packet(packet) => judge_packet(packet, rules, steps),
    }
}
