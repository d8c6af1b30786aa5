//! Names, run by run.
ghost use Rattle.std.specs.Prelude.{◌≡◌, ◌≤◌, length, IfOk};
ghost use Rattle.dns_snoop.specs.Names as spec;
ghost use Rattle.dns_snoop.specs.Names.{run_at, chain_behind};
ghost use Rattle.dns_snoop.specs.Steps.{AreJumps, run_answer, chain_answer, with_end, with_text};

use crate::fault::DnsFault;
use crate::jumps::behind_jump;
use crate::label::{Step, add_label, first_step};
use mud_base::ShortText;

/// How a run of labels ends.
#[derive(Clone, Copy)]
pub enum RunEnd {
    /// The name ends, and this is the offset behind its last octet.
    End(usize),
    /// At the first offset stands a pointer to the second one.
    Pointer(usize, usize),
}

/// A name: each label behind its length, in lower case; and the offset behind its first run, where
/// the message goes on.
#[derive(Clone, Copy)]
pub struct ReadName {
    pub text: ShortText,
    pub behind: usize,
}

/// The most octets that a name has (RFC 1035, section 2.3.4), its end aside.
const MOST_OCTETS: usize = 254;

/// Reads a run of labels behind those of the text.
#[tactic(auto, using(crate::proofs::Walks::run_end_here, crate::proofs::Walks::run_fault_here, crate::proofs::Walks::run_long_here, crate::proofs::Walks::run_label_here, crate::proofs::Walks::length_added), unfolding(crate::specs::Names::run_at, crate::specs::Names::behind_run))]
fn read_run(message: &[u8], start: usize, text: &mut ShortText) -> Result<RunEnd, DnsFault>
    requires start { start ≤ length message.now }
    requires short { length text.old ≤ 254 }
    ensures read { with_end text.new result ≡ run_answer text.old (run_at message.now start) }
    ensures short { length text.new ≤ 254 }
    ensures within { IfOk result (λ end. spec.behind_run end ≤ length message.now) }
{
    let (_, mut rest) = message.split_at(start);
    let mut offset = start;
    'labels: loop {
        match first_step(rest, offset) {
            Step::Fault(fault) => return Err(fault),
            Step::End => return Ok(RunEnd::End(offset + 1)),
            Step::Pointer(target) => return Ok(RunEnd::Pointer(offset, target)),
            Step::Label(label, behind) => {
                if text.len() + 1 + label.len() > MOST_OCTETS {
                    return Err(DnsFault::NameLong(offset));
                }
                add_label(text, label);
                offset += 1 + label.len();
                rest = behind;
            }
        }
    }
}

/// Reads the runs to which pointers lead behind a run that begins at this offset and ends so. Each
/// of them begins before the one before it, so no pointer is met twice; of pointers to pointers only
/// the last is met where there are jumps.
#[tactic(auto, using(crate::proofs::Walks::chain_end_here, crate::proofs::Walks::chain_pointer_here, crate::proofs::Walks::chain_err_here, crate::proofs::Walks::chain_ok_here))]
fn follow(
    message: &[u8],
    jumps: &[u16],
    start: usize,
    first: RunEnd,
    text: &mut ShortText,
) -> Result<(), DnsFault>
    requires jumps { AreJumps message.now jumps.now }
    requires start { start ≤ length message.now }
    requires short { length text.old ≤ 254 }
    ensures read { with_text text.new result ≡ chain_answer text.old (chain_behind start message.now start first) }
    ensures short { length text.new ≤ 254 }
{
    let mut run = start;
    let mut last = first;
    'runs: loop {
        let RunEnd::Pointer(at, target) = last else {
            return Ok(());
        };
        if target >= run {
            return Err(DnsFault::Pointer(at));
        }
        let target = behind_jump(jumps, target);
        last = read_run(message, target, text)?;
        run = target;
    }
}

/// The offset behind a name whose first run ends so.
#[tactic(auto, unfolding(crate::specs::Names::behind_run))]
fn behind_run(end: RunEnd) -> usize
    requires { spec.behind_run end ≤ 18446744073709551615 }
    ensures { result ≡ spec.behind_run end }
{
    match end {
        RunEnd::End(offset) => offset,
        RunEnd::Pointer(at, _) => at + 2,
    }
}

/// The name at an offset.
#[tactic(auto, unfolding(crate::specs::Names::read_name_of))]
pub(crate) fn read_name(message: &[u8], jumps: &[u16], offset: usize) -> Result<ReadName, DnsFault>
    requires jumps { AreJumps message.now jumps.now }
    requires start { offset ≤ length message.now }
    ensures read { result ≡ spec.read_name_of message.now offset }
    ensures within { IfOk result (λ name. name.behind ≤ length message.now) }
    ensures short { IfOk result (λ name. length name.text ≤ 254) }
{
    let mut text = ShortText::new();
    let first = read_run(message, offset, &mut text)?;
    follow(message, jumps, offset, first, &mut text)?;
    let behind = behind_run(first);
    Ok(ReadName { text, behind })
}
