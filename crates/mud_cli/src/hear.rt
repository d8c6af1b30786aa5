//! The command `hear`: the line of one message or frame.
ghost use Rattle.std.specs.Prelude.{◌≡◌, IfOk};
ghost use Rattle.mud_cli.specs.Hear.Answer.{hearing, hearing_within};
ghost use Rattle.mud_cli.specs.Answers.{answer_to};
ghost use Rattle.mud_cli.specs.declared.answer.Input.TheVariants as input;

mod lines;

use crate::answer::Answer;
use dhcp_lldp::{HearFault, Heard, read_dhcp, read_lldp};
use lines::{fault_line, heard_line, too_long_line};
use mud_base::Memory;
use run_words::Message;
use std::alloc::Global;

/// The most octets that a message has: the length of a UDP datagram is a number of 16 bits (RFC
/// 768).
pub(crate) const LONGEST_MESSAGE: usize = 65_535;

/// The line of a message that was read or refused.
#[tactic(auto, unfolding(crate::specs::Hear::Answer::hearing))]
fn hearing(alloc: Global, read: Result<Heard, HearFault>) -> Result<Answer, Memory>
    ensures { IfOk result (λ answer. answer ≡ hearing read) }
{
    match read {
        Ok(heard) => {
            let text = heard_line(alloc, &heard)?;
            Ok(Answer {
                text,
                refused: false,
            })
        }
        Err(fault) => {
            let text = fault_line(alloc, &fault)?;
            Ok(Answer {
                text,
                refused: true,
            })
        }
    }
}

/// The answer to a message of so many octets, which was read or refused.
#[tactic(auto, unfolding(crate::specs::Hear::Answer::hearing_within))]
fn hearing_within(
    alloc: Global,
    count: usize,
    read: Result<Heard, HearFault>,
) -> Result<Answer, Memory>
    ensures { IfOk result (λ answer. answer ≡ hearing_within count read) }
{
    if count > LONGEST_MESSAGE {
        let text = too_long_line(alloc)?;
        return Ok(Answer {
            text,
            refused: true,
        });
    }
    hearing(alloc, read)
}

/// The answer to the octets of a message.
#[tactic(auto, unfolding(crate::specs::Answers::answer_to))]
pub(crate) fn answer_of(alloc: Global, message: Message, octets: &[u8]) -> Result<Answer, Memory>
    ensures { IfOk result (λ answer. answer ≡ answer_to (input.Message message) octets.now) }
{
    match message {
        Message::Dhcp => hearing_within(alloc, octets.len(), read_dhcp(octets)),
        Message::Lldp => hearing_within(alloc, octets.len(), read_lldp(octets)),
    }
}
