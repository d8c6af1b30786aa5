//! The options of a DHCP message (RFC 2132, section 2), and which of them count.
ghost use Rattle.std.specs.Prelude.{◌≡◌, ◌<◌, ◌≤◌, length, drop, Ok, Err, Some, None};
ghost use Rattle.mud_base.specs.Faults.{unless_fault};
ghost use Rattle.dhcp_lldp.specs.Dhcp.{options_of};
ghost use Rattle.dhcp_lldp.specs.OptionStep.{IsStep};
ghost use Rattle.dhcp_lldp.specs.Options.{contents_of, option_fault};

use crate::contents::Contents;
use crate::heard::HearFault;

/// The option Pad (RFC 2132, section 3.1).
const PAD: u8 = 0;
/// The option End (RFC 2132, section 3.2).
const END: u8 = 255;

/// What stands at the front of some octets of the options.
#[derive(Drop)]
pub(crate) enum Step<'a> {
    /// The end of the options.
    End,
    /// An option that is cut by the end of the message.
    Cut,
    /// The option Pad, and what stands behind it.
    Pad(&'a [u8]),
    /// An option: its code, its content and what stands behind it.
    Whole(u8, &'a [u8], &'a [u8]),
}

/// What stands at the front of these octets.
#[tactic(auto, using(crate::proofs::OptionListing::whole_step, crate::proofs::OptionListing::cut_step))]
fn first_step(octets: &[u8]) -> Step<'_>
    ensures { IsStep octets.now result }
{
    let Some((code, behind)) = octets.split_first() else {
        return Step::End;
    };
    if *code == PAD {
        return Step::Pad(behind);
    }
    if *code == END {
        return Step::End;
    }
    let Some((len, behind)) = behind.split_first() else {
        return Step::Cut;
    };
    let len = usize::from(*len);
    if behind.len() < len {
        return Step::Cut;
    }
    let (content, rest) = behind.split_at(len);
    Step::Whole(*code, content, rest)
}

/// Where the options begin in a message, behind the magic cookie (RFC 2131, section 3).
pub(crate) const OPTIONS_OFFSET: usize = 240;

/// The contents of the options that count.
#[tactic(auto, using(crate::proofs::OptionWalk::walked_all, crate::proofs::OptionWalk::walked_end, crate::proofs::OptionWalk::walked_cut), unfolding(crate::specs::Dhcp::options_of))]
pub(crate) fn contents(message: &[u8]) -> Result<Contents<'_>, HearFault>
    requires { 240 ≤ length message.now }
    ensures { result ≡ unless_fault (option_fault (options_of message.now)) (Ok (contents_of (options_of message.now).whole)) }
{
    let (_, mut rest) = message.split_at(OPTIONS_OFFSET);
    let mut offset = OPTIONS_OFFSET;
    let mut contents = Contents::new();
    'options: loop {
        match first_step(rest) {
            Step::End => return Ok(contents),
            Step::Cut => return Err(HearFault::Cut(offset)),
            Step::Pad(behind) => {
                offset += 1;
                rest = behind;
            }
            Step::Whole(code, content, behind) => {
                contents = contents.with(code, content)?;
                offset += 2 + content.len();
                rest = behind;
            }
        }
    }
}
