//! The options of an interface description (draft-ietf-opsawg-pcapng, sections 3.5 and 4.2).
ghost use Rattle.std.specs.Prelude.{◌≡◌, ◌≤◌, length, drop, Ok, IfSome, option_copied, true};
ghost use Rattle.mud_base.specs.Faults.{unless};
ghost use Rattle.pcapng_read.specs.Blocks.{options_in, option_rows, interface_of};
ghost use Rattle.pcapng_read.specs.OptionStep.{IsStep, contents_behind, nothing_yet};
ghost use Rattle.pcapng_read.specs.Options as spec;

use crate::fault::NgFault;
use crate::interfaces::Interface;
use mud_base::{ByteOrder, number_16};
use std::marker::Model;

/// Where the code stands in an option.
const CODE_OFFSET: usize = 0;
/// Where the length of the content stands in an option.
const LEN_OFFSET: usize = 2;
/// Where the content begins in an option.
const CONTENT_OFFSET: usize = 4;
/// The end of the options (section 3.5.1, opt_endofopt).
const END: u16 = 0;
/// The resolution of the time (section 4.2, if_tsresol).
const RESOLUTION: u16 = 9;
/// The offset of the time (section 4.2, if_tsoffset).
const TIME_OFFSET: u16 = 14;
/// The content of an offset that is 0.
const NO_TIME_OFFSET: [u8; 8] = [0; 8];
/// How many units a second has where the resolution isn't said.
const MICROSECONDS: u64 = 1_000_000;
/// The bit of a resolution that says that it is a power of two.
const POWER_OF_TWO: u8 = 128;
/// Where the link type stands in an interface description (section 4.2).
const LINK_OFFSET: usize = 8;
/// Where the options begin in an interface description (section 4.2).
const OPTIONS_OFFSET: usize = 16;

/// What stands at the front of some octets of the options.
#[derive(Drop)]
pub(crate) enum Step<'a> {
    /// The end of the options.
    End,
    /// An option that passes the body of its block.
    Beyond,
    /// An option: its code, its content and what stands behind it.
    Whole(u16, &'a [u8], &'a [u8]),
}

/// The octets behind so many, or none where there are fewer.
fn behind(octets: &[u8], count: usize) -> &[u8]
    ensures { result.now ≡ drop count octets.now }
{
    let (_, behind) = octets.split_at(count.min(octets.len()));
    behind
}

/// What stands at the front of these octets.
#[tactic(auto, using(crate::proofs::OptionListing::short_step, crate::proofs::OptionListing::end_step, crate::proofs::OptionListing::beyond_step))]
fn first_step(order: ByteOrder, octets: &[u8]) -> Step<'_>
    ensures { IsStep order octets.now result }
{
    if octets.len() < CONTENT_OFFSET {
        return Step::End;
    }
    let code = number_16(order, octets, CODE_OFFSET);
    if code == END {
        return Step::End;
    }
    let len = usize::from(number_16(order, octets, LEN_OFFSET));
    let (_, rest) = octets.split_at(CONTENT_OFFSET);
    if rest.len() < len {
        return Step::Beyond;
    }
    let (content, _) = rest.split_at(len);
    Step::Whole(code, content, behind(rest, (len + 3) / 4 * 4))
}

/// The content of each option that is looked at, where it is there.
#[derive(Drop)]
struct Contents<'a> {
    resolution: Option<&'a [u8]>,
    time_offset: Option<&'a [u8]>,
}

impl<'a> Model for Contents<'a> {
    ghost use Rattle.std.specs.Prelude.{option_copied};
    ghost use Rattle.pcapng_read.specs.OptionStep.{Contents as OptionContents};

    ghost Value = { OptionContents };

    ghost view = { λ c. record { resolution = option_copied c.resolution; time_offset = option_copied c.time_offset } };
}

impl<'a> Contents<'a> {
    ghost use Rattle.std.specs.Prelude.{◌≡◌, option_copied};
    ghost use Rattle.pcapng_read.specs.OptionStep.{nothing_yet, with_content};

    /// What is known before any option.
    fn new() -> Contents<'a>
        ensures { result ≡ nothing_yet }
    {
        Contents {
            resolution: None,
            time_offset: None,
        }
    }

    /// The contents with that of one more option, which counts in place of an earlier one.
    fn with(self, code: u16, content: &'a [u8]) -> Contents<'a>
        ensures { result ≡ with_content self.entry code content.now }
    {
        match code {
            RESOLUTION => Contents {
                resolution: Some(content),
                ..self
            },
            TIME_OFFSET => Contents {
                time_offset: Some(content),
                ..self
            },
            _ => self,
        }
    }

    /// The content of the resolution.
    fn resolution(&self) -> Option<&'a [u8]>
        ensures { option_copied result ≡ self.now.resolution }
    {
        self.resolution
    }

    /// The content of the offset.
    fn time_offset(&self) -> Option<&'a [u8]>
        ensures { option_copied result ≡ self.now.time_offset }
    {
        self.time_offset
    }
}

/// The contents of the options that are looked at; None where an option passes the body.
#[tactic(auto, unfolding(crate::specs::OptionStep::contents_behind))]
fn contents_in(order: ByteOrder, octets: &[u8]) -> Option<Contents<'_>>
    ensures { result ≡ contents_behind nothing_yet (spec.options_from order 0 octets.now) }
{
    let mut rest = octets;
    let mut contents = Contents::new();
    'options: loop {
        match first_step(order, rest) {
            Step::End => return Some(contents),
            Step::Beyond => return None,
            Step::Whole(code, content, behind) => {
                contents = contents.with(code, content);
                rest = behind;
            }
        }
    }
}

/// How many units of time a second has by the octet of a resolution.
#[tactic(auto, unfolding(crate::specs::Options::units_of))]
fn units_of(resolution: u8) -> Option<u64>
    ensures value { result ≡ spec.units_of resolution }
    ensures some { IfSome result (λ units. 1 ≤ units) }
{
    if resolution <= 9 {
        return Some(10u64.pow(u32::from(resolution)));
    }
    if resolution >= POWER_OF_TWO && resolution <= POWER_OF_TWO + 30 {
        return Some(2u64.pow(u32::from(resolution - POWER_OF_TWO)));
    }
    None
}

/// Whether a content isn't there, or has one octet.
fn is_one(content: Option<&[u8]>) -> bool
    ensures { result ≡ spec.is_one (option_copied content.entry) }
{
    match content {
        None => true,
        Some(content) => content.len() == 1,
    }
}

/// How many units of time a second has by the content of a resolution, if it is there.
fn units_in(content: Option<&[u8]>) -> Option<u64>
    requires { spec.is_one (option_copied content) ≡ true }
    ensures value { result ≡ spec.units_in (option_copied content.entry) }
    ensures some { IfSome result (λ units. 1 ≤ units) }
{
    match content {
        None => Some(MICROSECONDS),
        Some(content) => units_of(content[0]),
    }
}

/// Whether an offset isn't there, or is 0.
fn has_no_time_offset(content: Option<&[u8]>) -> bool
    ensures { result ≡ spec.has_no_time_offset (option_copied content.entry) }
{
    match content {
        None => true,
        Some(content) => content == NO_TIME_OFFSET.as_slice(),
    }
}

/// The interface that a block describes, or what is wrong with its options.
#[tactic(auto, unfolding(crate::specs::OptionStep::contents_behind))]
pub(crate) fn interface_in(
    order: ByteOrder,
    block: &[u8],
    offset: u64,
) -> Result<Interface, NgFault>
    requires { 20 ≤ length block.now }
    ensures { result ≡ unless (option_rows offset (options_in order block.now)) (Ok (interface_of order block.now)) }
{
    let (body, _) = block.split_at(block.len() - 4);
    let (_, options) = body.split_at(OPTIONS_OFFSET);
    let Some(contents) = contents_in(order, options) else {
        return Err(NgFault::Length(offset));
    };
    let resolution = contents.resolution();
    if !is_one(resolution) {
        return Err(NgFault::Length(offset));
    }
    let Some(units) = units_in(resolution) else {
        return Err(NgFault::Resolution(offset));
    };
    if !has_no_time_offset(contents.time_offset()) {
        return Err(NgFault::Resolution(offset));
    }
    Ok(Interface::new(number_16(order, block, LINK_OFFSET), units))
}
