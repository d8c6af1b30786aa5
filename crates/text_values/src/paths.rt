//! Paths, in which only octets of 21 to 7E hex are shown as they are, and no backslash.
ghost use Rattle.std.specs.Prelude.{◌≡◌, ◌++◌, OnErr, OnOk, flat_map};
ghost use Rattle.text_values.specs.Added.{AddedPart};
ghost use Rattle.text_values.specs.Paths as spec;

use mud_base::{Bytes, Memory};
use std::alloc::Global;

/// Adds an octet of a path: one outside 21 to 7E hex, or a backslash, as `\x` and two hex digits.
#[tactic(auto, unfolding(crate::specs::Paths::shown))]
fn append_shown(alloc: Global, line: &mut Bytes, octet: u8) -> Result<(), Memory>
    ensures ok { OnOk result (line.new ≡ line.old ++ spec.shown octet) }
    ensures part { OnErr result (AddedPart (spec.shown octet) line.old line.new) }
{
    if octet.is_ascii_graphic() && octet != b'\\' {
        return line.push(octet);
    }
    line.append(b"\\x")?;
    line.append(hex::encode(alloc, [octet])?.as_bytes())
}

/// Adds a path as it is shown.
#[tactic(auto)]
fn append_path(alloc: Global, line: &mut Bytes, path: &[u8]) -> Result<(), Memory>
    ensures ok { OnOk result (line.new ≡ line.old ++ (flat_map spec.shown path.now)) }
    ensures part { OnErr result (AddedPart (flat_map spec.shown path.now) line.old line.new) }
{
    'path: for octet in path {
        append_shown(alloc, line, *octet)?;
    }
    Ok(())
}

/// Adds a space and the path, where it isn't empty.
#[tactic(auto, unfolding(crate::specs::Paths::path_part))]
pub fn append_path_part(alloc: Global, line: &mut Bytes, path: &[u8]) -> Result<(), Memory>
    ensures ok { OnOk result (line.new ≡ line.old ++ spec.path_part path.now) }
    ensures part { OnErr result (AddedPart (spec.path_part path.now) line.old line.new) }
{
    if path.is_empty() {
        return Ok(());
    }
    line.append(b" ")?;
    append_path(alloc, line, path)
}
