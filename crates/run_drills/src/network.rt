//! The Things of a drill, which are numbered from 1 on, and the hosts that they speak to.
ghost use Rattle.std.specs.Prelude.{◌≡◌, ◌++◌, ◌%◌, ◌<◌, ◌≤◌, OnOk, IfOk};
ghost use Rattle.run_drills.specs.Network as spec;

use mud_base::{Bytes, Mac, Memory};
use mud_url::{MudUrl, canonical_url};
use std::alloc::Global;
use text_values::append_decimal;

/// The most Things.
const MOST_THINGS: u32 = 256;

/// How many models there are: Things whose numbers leave the same remainder by this are of one.
const MODELS: u16 = 32;

/// How many makers there are.
const MAKERS: u16 = 8;

/// 10.0.0.0, to which the number of a Thing is added.
const FIRST_LEASE: u32 = 0x0A00_0000;

/// 198.51.100.0, to which the number of a model is added.
const FIRST_HOST: u32 = 0xC633_6400;

/// How many Things there are with so many packets: as many, but at most 256.
pub(crate) fn thing_count(packets: u32) -> u16
    ensures value { result ≡ spec.thing_count packets }
    ensures most { result ≤ 256 }
{
    packets.min(MOST_THINGS) as u16
}

/// How many of the Things have a usage file of their own: all, but at most 32.
pub(crate) fn file_count(packets: u32) -> u16
    ensures { result ≡ spec.file_count packets }
{
    thing_count(packets).min(MODELS)
}

/// The number of a Thing's model.
fn model_of(thing: u16) -> u16
    ensures value { result ≡ spec.model_of thing }
    ensures most { result < 32 }
{
    thing % MODELS
}

/// The number of its maker.
fn maker_of(thing: u16) -> u16
    ensures { result ≡ thing % 8 }
{
    thing % MAKERS
}

/// The hardware address of a Thing.
#[tactic(auto, unfolding(crate::specs::Network::mac_of))]
pub(crate) fn mac_of(thing: u16) -> Mac
    ensures { result ≡ spec.mac_of thing }
{
    Mac([2, 0, 0, 1, (thing / 256) as u8, (thing % 256) as u8])
}

/// The IPv4 address that a Thing has by lease.
#[tactic(auto, unfolding(crate::specs::Network::lease_of))]
pub(crate) fn lease_of(thing: u16) -> u32
    ensures { result ≡ spec.lease_of thing }
{
    FIRST_LEASE + u32::from(thing)
}

/// The IPv4 address of the host with which a Thing speaks.
#[tactic(auto, unfolding(crate::specs::Network::host_address))]
pub(crate) fn host_address(thing: u16) -> u32
    ensures { result ≡ spec.host_address thing }
{
    FIRST_HOST + u32::from(model_of(thing))
}

/// Adds the MUD URL of a Thing.
#[tactic(auto, unfolding(crate::specs::Network::usage_url))]
pub(crate) fn append_url(text: &mut Bytes, thing: u16) -> Result<(), Memory>
    ensures { OnOk result (text.new ≡ text.old ++ spec.usage_url thing) }
{
    text.append(b"https://maker")?;
    append_decimal(text, u64::from(maker_of(thing)))?;
    text.append(b".example.com/model")?;
    append_decimal(text, u64::from(model_of(thing)))
}

/// Adds the name of the host with which a Thing speaks.
#[tactic(auto, unfolding(crate::specs::Network::host_text))]
pub(crate) fn append_host(text: &mut Bytes, thing: u16) -> Result<(), Memory>
    ensures { OnOk result (text.new ≡ text.old ++ spec.host_text thing) }
{
    text.append(b"host")?;
    append_decimal(text, u64::from(model_of(thing)))?;
    text.append(b".example.com")
}

/// The MUD URL of a Thing.
#[tactic(auto, using(crate::proofs::Names::url_is_canonical))]
pub(crate) fn url_of(alloc: Global, thing: u16) -> Result<MudUrl, Memory>
    ensures { IfOk result (λ url. url ≡ spec.usage_url thing) }
{
    let mut text = Bytes::empty(alloc);
    append_url(&mut text, thing)?;
    match canonical_url(text.octets()) {
        Some(url) => Ok(url),
        None => unreachable!(),
    }
}
