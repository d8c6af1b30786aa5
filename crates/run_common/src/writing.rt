//! A part of a text, written.
ghost use Rattle.std.specs.Prelude.{◌≡◌, OnOk, OnErr, IsTrue};
ghost use Rattle.mud_world.specs.Causes.{Counts};
ghost use Rattle.mud_world.specs.Door.{put_out};
ghost use Rattle.run_common.specs.Ends.{IsStoppedWriting};
ghost use Rattle.run_common.specs.Output.{WroteFirst};
ghost use Rattle.run_common.specs.Stops.{has_failed};

use crate::Stop;
use mud_world::{Door, say};

/// Writes a text whole; or a first part of it, where a write of the door fails, which is the last
/// call of the door. It takes no memory.
pub fn write_text<D: Door>(door: &mut D, text: &[u8]) -> Result<(), Stop>
    ensures ok { D.tells → OnOk result ((D.view door.new).state ≡ put_out text.now (D.view door.old).state) }
    ensures part { D.tells → OnErr result (WroteFirst text.now (D.view door.old).state (D.view door.new).state) }
    ensures failed { OnErr result (IsTrue (has_failed result)) }
    ensures cause { Counts (has_failed result) (D.view door.old).writes (D.view door.new).writes }
    ensures stop { IsTrue (has_failed result) → IsStoppedWriting (D.view door.old) (D.view door.new) }
    ensures turns { (D.view door.new).turns ≡ (D.view door.old).turns }
    ensures reads { (D.view door.new).reads ≡ (D.view door.old).reads }
{
    say(door, text)?;
    Ok(())
}
