//! Frames and packets as views that borrow the frame.
ghost use Rattle.std.specs.Prelude.{◌≡◌, ◌≤◌, length};
ghost use Rattle.frame_view.specs.Ethernet.{destination_of, source_of};
ghost use Rattle.frame_view.specs.Carried.{payload_of};

use mud_base::ethernet::{DESTINATION_OFFSET, SOURCE_OFFSET};
use mud_base::{Fields, Mac, mac_at};
use std::marker::Model;

/// The part of a frame that is cut or broken.
#[derive(Clone, Copy)]
pub enum Part {
    /// The head of an Ethernet frame (IEEE 802.3).
    Ethernet,
    /// A tag (IEEE 802.1Q), or there are more than two.
    Tag,
    /// The header of an IP packet (RFC 791, RFC 8200).
    Ip,
    /// An IPv6 extension header (RFC 8200, section 4), or there are more than eight.
    Extension,
    /// The header of TCP (RFC 9293), UDP (RFC 768) or ICMP (RFC 792, RFC 4443).
    Transport,
}

/// A frame with a whole Ethernet head. Contracts see it as the octets of the frame.
#[derive(Drop)]
pub struct FrameView<'a> {
    octets: &'a [u8],
}

impl<'a> Model for FrameView<'a> {
    ghost use Rattle.std.specs.Prelude.{ℕ, List, ◌≤◌, length};

    ghost Value = { List ℕ };

    ghost view = { λ f. f.octets.now };

    ghost invariant = { λ f. 14 ≤ length f.octets.now };
}

impl<'a> FrameView<'a> {
    pub(crate) fn new(frame: &'a [u8]) -> FrameView<'a>
        requires { 14 ≤ length frame.now }
        ensures { result ≡ frame.now }
    {
        FrameView { octets: frame }
    }

    /// The hardware address that the frame is sent to.
    #[tactic(auto, unfolding(crate::specs::Ethernet::destination_of))]
    pub fn destination(&self) -> Mac
        ensures { result ≡ destination_of self.now }
    {
        mac_at(self.octets, DESTINATION_OFFSET)
    }

    /// The hardware address that sent the frame.
    #[tactic(auto, unfolding(crate::specs::Ethernet::source_of))]
    pub fn source(&self) -> Mac
        ensures { result ≡ source_of self.now }
    {
        mac_at(self.octets, SOURCE_OFFSET)
    }
}

/// What the headers of a packet say, and what it holds behind them: of UDP all that counts there, of
/// another transport nothing.
#[derive(Drop)]
pub(crate) struct Contents<'a> {
    pub(crate) fields: Fields,
    pub(crate) payload: &'a [u8],
}

impl<'a> Model for Contents<'a> {
    ghost use Rattle.frame_view.specs.PacketFrame.{Contents};

    ghost Value = { Contents };

    ghost view = { λ c. record { fields = c.fields; payload = c.payload.now } };
}

/// A frame that carries an IP packet. Contracts see it as the octets of the frame and what the
/// packet's headers say.
#[derive(Drop)]
pub struct PacketView<'a> {
    octets: &'a [u8],
    fields: Fields,
    payload: &'a [u8],
}

impl<'a> Model for PacketView<'a> {
    ghost use Rattle.std.specs.Prelude.{◌≡◌, ◌≤◌, length};
    ghost use Rattle.frame_view.specs.Carried.{payload_of};
    ghost use Rattle.frame_view.specs.PacketFrame.{PacketFrame};

    ghost Value = { PacketFrame };

    ghost view = { λ p. record { octets = p.octets.now; fields = p.fields } };

    ghost invariant = { λ p. (14 ≤ length p.octets.now) × (p.payload.now ≡ payload_of p.octets.now) };
}

impl<'a> PacketView<'a> {
    pub(crate) fn new(frame: &'a [u8], contents: Contents<'a>) -> PacketView<'a>
        requires head { 14 ≤ length frame.now }
        requires payload { contents.payload ≡ payload_of frame.now }
        ensures { result ≡ record { octets = frame.now; fields = contents.entry.fields } }
    {
        PacketView {
            octets: frame,
            fields: contents.fields,
            payload: contents.payload,
        }
    }

    /// The frame.
    pub fn frame(&self) -> FrameView<'a>
        ensures { result ≡ self.now.octets }
    {
        FrameView::new(self.octets)
    }

    /// What the packet's headers say.
    pub fn fields(&self) -> Fields
        ensures { result ≡ self.now.fields }
    {
        self.fields
    }

    /// What a datagram of UDP holds behind its header, up to the end of what counts of the packet.
    /// Of another transport it is empty.
    pub fn payload(&self) -> &'a [u8]
        ensures { result.now ≡ payload_of self.now.octets }
    {
        self.payload
    }
}

/// What a frame is.
#[derive(Drop)]
pub enum Frame<'a> {
    /// It isn't IP, or it keeps the link up.
    Link(FrameView<'a>),
    /// A part of it is cut or broken. There is a view exactly where that isn't the Ethernet head.
    Unreadable(Option<FrameView<'a>>, Part),
    /// It carries an IP packet.
    Packet(PacketView<'a>),
}
