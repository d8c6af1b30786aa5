//! What a request asks for.
ghost use Rattle.std.specs.Prelude.{◌≡◌};
ghost use Rattle.console_bodies.specs.Bodies as spec;

use console_routes::Listing;
use desk_model::Command;
use dhcp_lldp::Heard;

/// What a request asks for, its body read.
#[derive(Drop)]
pub enum Asked {
    /// A command that the operator states, or a fetched usage file.
    Command(Command),
    /// What a message says: a command, or nothing.
    Heard(Heard),
    /// Rows are listed.
    List(Listing),
    /// The body is a frame, which passes or is dropped.
    Judge,
    /// The body is a frame, and what decides it is asked for.
    Why,
}

/// The command that takes what was heard. None exactly for what says nothing.
#[tactic(auto, unfolding(crate::specs::Bodies::heard_command))]
pub fn heard_command(heard: Heard) -> Option<Command>
    ensures { result ≡ spec.heard_command heard }
{
    match heard {
        Heard::Url(mac, url) => Some(Command::HearUrl(mac, url)),
        Heard::Lease(mac, address, seconds) => Some(Command::HearLease(mac, address, seconds)),
        Heard::Nothing => None,
    }
}
