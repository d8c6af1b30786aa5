//! URLs, and what is wrong with one.
ghost use Rattle.std.specs.Prelude.{◌≡◌, ◌++◌, OnErr, OnOk};
ghost use Rattle.text_values.specs.Added.{AddedPart};
ghost use Rattle.text_values.specs.Faults as spec;
ghost use Rattle.text_values.specs.Numbers.{offset_text};
ghost use Rattle.mud_url.specs.Fault as url_fault;

use crate::numbers::append_offset;
use mud_base::{Bytes, Memory};
use mud_url::{MudUrl, UrlFault};

/// Adds a URL's canonical text. Without memory the line stays as it was.
pub fn append_url(line: &mut Bytes, url: &MudUrl) -> Result<(), Memory>
    ensures ok { OnOk result (line.new ≡ line.old ++ url.now) }
    ensures err { OnErr result (line.new ≡ line.old) }
{
    line.append(url.text())
}

/// Adds the name of a URL's fault, and behind a space its offset where it has one.
#[tactic(auto)]
pub fn append_url_fault(line: &mut Bytes, fault: UrlFault) -> Result<(), Memory>
    ensures ok { OnOk result (line.new ≡ line.old ++ (url_fault.name_of fault ++ offset_text (url_fault.offset_of fault))) }
    ensures part { OnErr result (AddedPart (url_fault.name_of fault ++ offset_text (url_fault.offset_of fault)) line.old line.new) }
{
    line.append(fault.name().as_bytes())?;
    append_offset(line, fault.offset().map(|offset| offset as u64))
}

/// Adds a space and a URL's fault, where there is one.
#[tactic(auto, unfolding(crate::specs::Faults::url_part))]
pub fn append_url_part(line: &mut Bytes, fault: Option<UrlFault>) -> Result<(), Memory>
    ensures ok { OnOk result (line.new ≡ line.old ++ spec.url_part fault) }
    ensures part { OnErr result (AddedPart (spec.url_part fault) line.old line.new) }
{
    match fault {
        None => Ok(()),
        Some(fault) => {
            line.append(b" ")?;
            append_url_fault(line, fault)
        }
    }
}
