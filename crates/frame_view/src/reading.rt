//! What a frame is, by its headers from the outside inwards.
ghost use Rattle.std.specs.Prelude.{◌≡◌, ◌≤◌, length, drop};
ghost use Rattle.frame_view.specs.Carried as spec;
ghost use Rattle.frame_view.specs.Frame.{frame_of};

use crate::views::{Contents, Frame, FrameView, PacketView, Part};
use crate::{ipv4, ipv6};
use mud_base::big_16;
use mud_base::ethernet::{HEAD_LEN, TYPE_OFFSET};

/// The type of a customer's tag (IEEE 802.1Q).
const CUSTOMER_TAG: u16 = 0x8100;
/// The type of a service provider's tag (IEEE 802.1Q).
const SERVICE_TAG: u16 = 0x88A8;
/// How many octets a type has (IEEE 802.3, clause 3).
const TYPE_LEN: usize = 2;
/// How many octets a tag has in front of the next type (IEEE 802.1Q).
const TAG_LEN: usize = 4;
/// The type of IPv4.
const IPV4: u16 = 0x0800;
/// The type of IPv6.
const IPV6: u16 = 0x86DD;

/// The type that stands first.
fn first_type(typed: &[u8]) -> u16
    requires { 2 ≤ length typed.now }
    ensures { result ≡ spec.first_type typed.now }
{
    big_16(typed, 0)
}

/// Whether a tag's type stands first.
#[tactic(auto, unfolding(crate::specs::Carried::is_tag))]
fn is_tag(typed: &[u8]) -> bool
    ensures { result ≡ spec.is_tag typed.now }
{
    if typed.len() < TYPE_LEN {
        return false;
    }
    let kind = first_type(typed);
    kind == CUSTOMER_TAG || kind == SERVICE_TAG
}

/// What follows a tag, where one stands first.
#[tactic(auto, unfolding(crate::specs::Carried::past_tag))]
fn past_tag(typed: &[u8]) -> &[u8]
    ensures { result.now ≡ spec.past_tag typed.now }
{
    if is_tag(typed) {
        let (_, rest) = typed.split_at(typed.len().min(TAG_LEN));
        return rest;
    }
    typed
}

/// What the frame carries, by the type that stands first.
#[tactic(auto, unfolding(crate::specs::Carried::by_type))]
fn by_type(typed: &[u8]) -> Result<Option<Contents<'_>>, Part>
    requires { 2 ≤ length typed.now }
    ensures { result ≡ spec.by_type typed.now }
{
    let kind = first_type(typed);
    let (_, packet) = typed.split_at(TYPE_LEN);
    if kind == IPV4 {
        return ipv4::packet_of(packet);
    }
    if kind == IPV6 {
        return ipv6::packet_of(packet);
    }
    Ok(None)
}

/// The same behind at most two tags.
#[tactic(auto, unfolding(crate::specs::Carried::carried))]
fn carried(typed: &[u8]) -> Result<Option<Contents<'_>>, Part>
    ensures { result ≡ spec.carried typed.now }
{
    let inner = past_tag(past_tag(typed));
    if inner.len() < TYPE_LEN {
        return Err(Part::Tag);
    }
    if is_tag(inner) {
        return Err(Part::Tag);
    }
    by_type(inner)
}

/// What a frame carries in which the type of IPv4 stands first.
#[tactic(auto, using(crate::proofs::Plain::plain_carried))]
#[inline(always)]
fn carried_plain(typed: &[u8]) -> Result<Option<Contents<'_>>, Part>
    requires long { 2 ≤ length typed.now }
    requires plain { spec.first_type typed.now ≡ 0x0800 }
    ensures { result ≡ spec.carried typed.now }
{
    let (_, packet) = typed.split_at(TYPE_LEN);
    ipv4::packet_of(packet)
}

/// What a frame with a whole head is, by what it carries.
#[tactic(auto, unfolding(crate::specs::Frame::frame_of, crate::specs::Carried::payload_of))]
#[inline(always)]
fn answered<'a>(frame: &'a [u8], carried: Result<Option<Contents<'a>>, Part>) -> Frame<'a>
    requires head { 14 ≤ length frame.now }
    requires carried { carried ≡ spec.carried (drop 12 frame.now) }
    ensures { result ≡ frame_of frame.now }
{
    match carried {
        Ok(None) => Frame::Link(FrameView::new(frame)),
        Ok(Some(contents)) => Frame::Packet(PacketView::new(frame, contents)),
        Err(part) => Frame::Unreadable(Some(FrameView::new(frame)), part),
    }
}

/// What a frame with a whole head is, whatever type stands first.
#[inline(never)]
fn view_of_any(frame: &[u8]) -> Frame<'_>
    requires { 14 ≤ length frame.now }
    ensures { result ≡ frame_of frame.now }
{
    let (_, typed) = frame.split_at(TYPE_OFFSET);
    answered(frame, carried(typed))
}

/// What a frame is. The views borrow it. In most frames the type of IPv4 stands first, and these are
/// read apart from the others.
#[tactic(auto, unfolding(crate::specs::Frame::frame_of))]
pub fn view(frame: &[u8]) -> Frame<'_>
    ensures { result ≡ frame_of frame.now }
{
    if frame.len() < HEAD_LEN {
        return Frame::Unreadable(None, Part::Ethernet);
    }
    let (_, typed) = frame.split_at(TYPE_OFFSET);
    if first_type(typed) == IPV4 {
        return answered(frame, carried_plain(typed));
    }
    view_of_any(frame)
}
