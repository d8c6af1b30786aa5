//! Octets of a door, behind those that are kept.
ghost use Rattle.std.specs.Prelude.{◌≡◌, ◌+◌, ◌-◌, ◌<◌, ◌≤◌, [], All, length, take, drop, slice_range, IfOk, OnErr, is_err};
ghost use Rattle.mud_world.specs.Causes.{Counts, StopsAtFailure};
ghost use Rattle.mud_world.specs.Door.{Took};

use mud_base::Memory;
use mud_world::{Door, Failed};
use std::alloc::Global;

/// So many octets, each of them 0.
#[tactic(auto, using(crate::proofs::Buffers::zeros_alone))]
pub fn zeros(alloc: Global, len: usize) -> Result<Vec<u8>, Memory>
    ensures len { IfOk result (λ octets. length octets.items ≡ len) }
    ensures zero { IfOk result (λ octets. All (λ octet. octet ≡ 0) octets.items) }
{
    Ok(vec![in alloc; 0; len]?)
}

/// Moves the octets of a part to the front.
#[tactic(auto, using(crate::proofs::Buffers::part_moved, crate::proofs::Buffers::part_in_front))]
fn move_to_front(octets: &mut [u8], start: usize, end: usize)
    requires ordered { start ≤ end }
    requires within { end ≤ length octets.old }
    ensures { take (end - start) octets.new ≡ slice_range octets.old start end }
{
    if start > 0 {
        octets.copy_within(start..end, 0);
    }
}

/// Reads once of the door, behind the first `at` octets.
#[tactic(auto, using(crate::proofs::Buffers::front_kept, crate::proofs::Buffers::behind_front))]
fn read_behind<D: Door>(door: &mut D, octets: &mut [u8], at: usize) -> Result<usize, Failed>
    requires { at < length octets.old }
    ensures within { IfOk result (λ n. at + n ≤ length octets.new) }
    ensures front { take at octets.new ≡ take at octets.old }
    ensures octets { D.tells → IfOk result (λ n.
        Took (take n (drop at octets.new)) (D.view door.old).state (D.view door.new).state
        × (n ≡ 0 → (D.view door.old).state.left ≡ [])) }
    ensures err { D.tells → OnErr result ((D.view door.new).state ≡ (D.view door.old).state) }
    ensures cause { Counts (is_err result) (D.view door.old).reads (D.view door.new).reads }
    ensures stop { OnErr result (StopsAtFailure (D.view door.new).failed (D.view door.old).reads (D.view door.new).reads) }
    ensures turns { (D.view door.new).turns ≡ (D.view door.old).turns }
    ensures writes { (D.view door.new).writes ≡ (D.view door.old).writes }
{
    let (_, room) = octets.split_at_mut(at);
    door.read(room)
}

/// Moves the octets from `start` to `end` to the front, and reads once of the door behind them, as
/// much as the read gives. It answers how many octets that were: 0 only at the end of the
/// connection. Where the read fails, the octets that were moved stand in front all the same.
pub fn refill<D: Door>(
    door: &mut D,
    octets: &mut [u8],
    start: usize,
    end: usize,
) -> Result<usize, Failed>
    requires ordered { start ≤ end }
    requires within { end ≤ length octets.old }
    requires room { end - start < length octets.old }
    ensures within { IfOk result (λ n. end - start + n ≤ length octets.new) }
    ensures front { take (end - start) octets.new ≡ slice_range octets.old start end }
    ensures octets { D.tells → IfOk result (λ n.
        Took (take n (drop (end - start) octets.new)) (D.view door.old).state (D.view door.new).state
        × (n ≡ 0 → (D.view door.old).state.left ≡ [])) }
    ensures err { D.tells → OnErr result ((D.view door.new).state ≡ (D.view door.old).state) }
    ensures cause { Counts (is_err result) (D.view door.old).reads (D.view door.new).reads }
    ensures stop { OnErr result (StopsAtFailure (D.view door.new).failed (D.view door.old).reads (D.view door.new).reads) }
    ensures turns { (D.view door.new).turns ≡ (D.view door.old).turns }
    ensures writes { (D.view door.new).writes ≡ (D.view door.old).writes }
{
    move_to_front(octets, start, end);
    read_behind(door, octets, end - start)
}
