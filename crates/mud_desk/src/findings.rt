//! What decides a frame.
ghost use Rattle.std.specs.Prelude.{◌≡◌, ◌-◌, option_copied, slice_get};
ghost use Rattle.acl_compile.specs.Plans.{policy_held};
ghost use Rattle.table_model.specs.Things.{thing_at};
ghost use Rattle.desk_model.specs.Findings as spec;
ghost use Rattle.mud_desk.specs.Findings.{found_in, AreFindingsOn, HasRulingsOfThings};

use acl_compile::Compiled;
use acl_model::{Entry, Ruling};
use acl_rows::RulePart;
use frame_view::{Frame, PacketView};
use mud_base::{Direction, Mac};
use mud_url::MudUrl;
use packet_judge::Verdict;
use table_model::Thing;
use thing_book::ThingBook;

/// A Thing at an endpoint of a frame, and what is decided on its packet.
#[derive(Clone, Copy)]
pub struct RuledThing<'a> {
    /// The Thing.
    pub thing: &'a Thing,
    /// What is decided.
    pub ruling: Ruling,
    /// The entry that decides, where one of the Thing's usage file does.
    pub entry: Option<&'a Entry>,
}

/// What decides a frame, at each endpoint and in all. An endpoint is None where it is no Thing, and
/// where nothing is decided.
#[derive(Clone, Copy)]
pub struct Findings<'a> {
    /// The Thing that sent the frame.
    pub source: Option<RuledThing<'a>>,
    /// The Thing that the frame is for.
    pub destination: Option<RuledThing<'a>>,
    /// The verdict on the frame.
    pub verdict: Verdict,
}

/// The entry of a number, from 1 on, in a part of a view.
#[tactic(auto, using(crate::proofs::Numbered::entry_past, crate::proofs::Numbered::entry_within))]
fn entry_in<'a>(part: &RulePart<'a>, number: u16) -> Option<&'a Entry>
    ensures { option_copied result ≡ slice_get part.now.entries (number - 1) }
{
    let number = number.max(1);
    if number > part.count() {
        return None;
    }
    Some(part.entry(number))
}

/// The entry of a number, from 1 on, in the policy that is held for a URL.
fn numbered_entry<'a>(
    compiled: &'a Compiled,
    side: Direction,
    url: &MudUrl,
    number: u16,
) -> Option<&'a Entry>
    ensures { option_copied result ≡ spec.numbered_entry (policy_held compiled.now.slots) side url.now number }
{
    let view = compiled.view(url, side);
    match view.file_part() {
        Some(part) => entry_in(&part, number),
        None => None,
    }
}

/// The entry that decides, where one of the policy that is held for the URL does.
#[tactic(auto, unfolding(desk_model::specs::Findings::deciding_entry))]
fn deciding_entry<'a>(
    compiled: &'a Compiled,
    side: Direction,
    url: &MudUrl,
    ruling: Ruling,
) -> Option<&'a Entry>
    ensures { option_copied result ≡ spec.deciding_entry (policy_held compiled.now.slots) side url.now ruling }
{
    match ruling {
        Ruling::Accept(number) => numbered_entry(compiled, side, url, number),
        Ruling::Drop(number) => numbered_entry(compiled, side, url, number),
        Ruling::AcceptDefault(_) => None,
        Ruling::DropDefault(_) => None,
        Ruling::DropHeld => None,
    }
}

/// What is found at an endpoint with this hardware address and this ruling.
#[tactic(auto, unfolding(desk_model::specs::Findings::found_at, crate::specs::Findings::found_in))]
fn ruled_thing<'a>(
    things: &'a ThingBook,
    compiled: &'a Compiled,
    side: Direction,
    mac: Mac,
    ruling: Option<Ruling>,
) -> Option<RuledThing<'a>>
    ensures { found_in result ≡ spec.found_at (policy_held compiled.now.slots) side ruling (thing_at mac things.now.things) }
{
    let ruling = ruling?;
    let thing = things.thing_at(mac)?;
    let entry = deciding_entry(compiled, side, &thing.url, ruling);
    Some(RuledThing {
        thing,
        ruling,
        entry,
    })
}

/// What is found of a packet with these rulings: of the Thing that sent it, and of the Thing that
/// it is for. Where it is for no Thing, as where it is for a group, there is no ruling for that
/// endpoint.
#[tactic(auto, using(crate::proofs::Rulings::found_from, crate::proofs::Rulings::found_for))]
fn packet_findings<'a>(
    things: &'a ThingBook,
    compiled: &'a Compiled,
    packet: &PacketView<'_>,
    source: Option<Ruling>,
    destination: Option<Ruling>,
) -> Findings<'a>
    requires { HasRulingsOfThings things.now.things (Frame.Packet packet.now) (Verdict.Governed source destination) }
    ensures found { AreFindingsOn (policy_held compiled.now.slots) things.now.things (Frame.Packet packet.now) result }
    ensures verdict { result.verdict ≡ Verdict.Governed source destination }
{
    let frame = packet.frame();
    let from = frame.source();
    let to = frame.destination();
    Findings {
        source: ruled_thing(things, compiled, Direction::From, from, source),
        destination: ruled_thing(things, compiled, Direction::To, to, destination),
        verdict: Verdict::Governed(source, destination),
    }
}

/// What is found of a frame with this verdict.
#[tactic(auto, unfolding(desk_model::specs::Findings::source_found, desk_model::specs::Findings::destination_found, crate::specs::Findings::found_in))]
pub(crate) fn findings_with<'a>(
    things: &'a ThingBook,
    compiled: &'a Compiled,
    frame: &Frame<'_>,
    verdict: Verdict,
) -> Findings<'a>
    requires { HasRulingsOfThings things.now.things frame.now verdict }
    ensures found { AreFindingsOn (policy_held compiled.now.slots) things.now.things frame.now result }
    ensures verdict { result.verdict ≡ verdict }
{
    match (frame, verdict) {
        (Frame::Packet(packet), Verdict::Governed(source, destination)) => {
            packet_findings(things, compiled, packet, source, destination)
        }
        (_, verdict) => Findings {
            source: None,
            destination: None,
            verdict,
        },
    }
}
