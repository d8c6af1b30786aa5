//! What stands at the offset of a label.
ghost use Rattle.std.specs.Prelude.{◌≡◌, ◌+◌, ◌≤◌, ◌++◌, ◌∷◌, length};
ghost use Rattle.dns_snoop.specs.Steps.{IsStep};
ghost use Rattle.mud_url.specs.Host.{lowered};

use crate::fault::DnsFault;
use mud_base::ShortText;

/// The least octet that is no label's length (RFC 1035, section 3.1).
const LABEL_BOUND: usize = 64;
/// The least octet that begins a pointer: the two bits 11 (RFC 1035, section 4.1.4).
const POINTER_BASE: usize = 192;

/// What stands at the offset of a label.
#[derive(Drop)]
pub(crate) enum Step<'a> {
    /// Nothing that may stand there.
    Fault(DnsFault),
    /// The end of the name.
    End,
    /// A pointer to this offset.
    Pointer(usize),
    /// A label, and the octets behind it.
    Label(&'a [u8], &'a [u8]),
}

/// What stands at the front of these octets, the first of which is at this offset.
#[tactic(auto, using(crate::proofs::Runs::run_cut, crate::proofs::Runs::run_end, crate::proofs::Runs::run_label_cut, crate::proofs::Runs::run_label, crate::proofs::Runs::run_other, crate::proofs::Runs::run_pointer_cut, crate::proofs::Runs::run_pointer))]
pub(crate) fn first_step(octets: &[u8], offset: usize) -> Step<'_>
    ensures { IsStep offset octets.now result }
{
    let Some((code, behind)) = octets.split_first() else {
        return Step::Fault(DnsFault::Cut(offset));
    };
    let code = usize::from(*code);
    if code == 0 {
        return Step::End;
    }
    if code < LABEL_BOUND {
        if behind.len() < code {
            return Step::Fault(DnsFault::Cut(offset));
        }
        let (label, rest) = behind.split_at(code);
        return Step::Label(label, rest);
    }
    if code < POINTER_BASE {
        return Step::Fault(DnsFault::Label(offset));
    }
    let Some((low, _)) = behind.split_first() else {
        return Step::Fault(DnsFault::Cut(offset));
    };
    Step::Pointer(256 * (code - POINTER_BASE) + usize::from(*low))
}

/// Adds a label to a name's text: its length, and its octets with their letters in lower case.
#[tactic(auto, unfolding(mud_url::specs::Host::lowered))]
pub(crate) fn add_label(text: &mut ShortText, label: &[u8])
    requires few { length label.now ≤ 63 }
    requires room { length text.old + (1 + length label.now) ≤ 254 }
    ensures { text.new ≡ text.old ++ (length label.now ∷ lowered label.now) }
{
    text.push(label.len() as u8);
    'octets: for octet in label {
        text.push(octet.to_ascii_lowercase());
    }
}
