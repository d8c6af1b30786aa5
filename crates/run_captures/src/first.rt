//! The first octets of a connection.
ghost use Rattle.std.specs.Prelude.{◌≡◌, ◌≤◌, length, IfOk, OnErr, is_err};
ghost use Rattle.mud_world.specs.Causes.{Counts, StopsAtFailure};
ghost use Rattle.mud_world.specs.Whole.{TookPart};
ghost use Rattle.run_captures.specs.First.{ReadsFirst};

use mud_world::{Door, Failed};
use std::marker::Model;

/// So many octets say in which format a capture is.
const FIRST_LEN: usize = 4;

/// The first octets of a connection: four, or as many fewer as it has.
#[derive(Drop)]
pub struct First {
    octets: [u8; FIRST_LEN],
    len: usize,
}

impl Model for First {
    ghost use Rattle.std.specs.Prelude.{ℕ, List, ◌≤◌, take};

    ghost Value = { List ℕ };

    ghost view = { λ first. take first.len first.octets };

    ghost invariant = { λ first. first.len ≤ 4 };
}

impl First {
    /// The octets.
    pub fn octets(&self) -> &[u8]
        ensures value { result.now ≡ self.now }
        ensures four { length self.now ≤ 4 }
    {
        &self.octets[..self.len]
    }
}

/// Reads the first octets of the door's connection. It takes no memory. Where a read fails, fewer
/// than four octets are taken.
pub(crate) fn read_first<D: Door>(door: &mut D) -> Result<First, Failed>
    ensures first { D.tells → IfOk result (λ first. ReadsFirst first (D.view door.old).state (D.view door.new).state) }
    ensures part { D.tells → OnErr result (TookPart 3 (D.view door.old).state (D.view door.new).state) }
    ensures cause { Counts (is_err result) (D.view door.old).reads (D.view door.new).reads }
    ensures stop { OnErr result (StopsAtFailure (D.view door.new).failed (D.view door.old).reads (D.view door.new).reads) }
    ensures turns { (D.view door.new).turns ≡ (D.view door.old).turns }
    ensures writes { (D.view door.new).writes ≡ (D.view door.old).writes }
{
    let mut octets = [0; FIRST_LEN];
    let mut len = 0;
    'first: while len < FIRST_LEN {
        let (_, room) = octets.split_at_mut(len);
        let count = door.read(room)?;
        if count == 0 {
            return Ok(First { octets, len });
        }
        len += count;
    }
    Ok(First { octets, len })
}
