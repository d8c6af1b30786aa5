//! The octet of differentiated services: IPv4's type of service, IPv6's traffic class.
ghost use Rattle.std.specs.Prelude.{◌≡◌};
ghost use Rattle.frame_view.specs.Traffic as spec;

/// The codepoint (RFC 2474, 3), from 0 to 63.
#[tactic(auto, unfolding(crate::specs::Traffic::codepoint))]
pub(crate) fn codepoint(octet: u8) -> u8
    ensures { result ≡ spec.codepoint octet }
{
    octet / 4
}

/// Explicit congestion notification (RFC 3168, 5), from 0 to 3.
#[tactic(auto, unfolding(crate::specs::Traffic::congestion))]
pub(crate) fn congestion(octet: u8) -> u8
    ensures { result ≡ spec.congestion octet }
{
    octet % 4
}
