//! The one buffer between a source and the packets.
ghost use Rattle.std.specs.Prelude.{◌≡◌, ◌+◌, ◌<◌, ◌≤◌, [], length, take, drop, IfOk, OnErr, is_err, nat_le, false};
ghost use Rattle.mud_world.specs.Causes.{Counts, StopsAtFailure};
ghost use Rattle.read_buffer.specs.Reading.{Fetched};

use crate::{refill, zeros};
use mud_base::Memory;
use mud_world::{Door, Failed};
use std::alloc::Global;
use std::marker::Model;

/// The octets that were taken of a source, `SIZE` at most at once: those handed out last from `from`
/// to `start`, and those behind them up to `end`, which are held.
#[derive(Drop)]
pub struct Buffer<const SIZE: usize> {
    octets: Vec<u8>,
    from: usize,
    start: usize,
    end: usize,
}

/// Copies octets to the front of the room.
fn copy_to_front(room: &mut [u8], octets: &[u8])
    requires { length octets.now ≤ length room.old }
    ensures { take (length octets.now) room.new ≡ octets.now }
{
    room[..octets.len()].copy_from_slice(octets);
}

impl<const SIZE: usize> Model for Buffer<SIZE> {
    ghost use Rattle.std.specs.Prelude.{◌≡◌, ◌≤◌, length, slice_range};
    ghost use Rattle.read_buffer.specs.Held.{Holding};

    ghost Value = { Holding };

    ghost view = { λ b. record {
      given = slice_range b.octets.items b.from b.start;
      held = slice_range b.octets.items b.start b.end;
    } };

    ghost invariant = { λ b. (b.from ≤ b.start) × (b.start ≤ b.end) × (b.end ≤ length b.octets.items) × (length b.octets.items ≡ SIZE) };
}

impl<const SIZE: usize> Buffer<SIZE> {
    ghost use Rattle.read_buffer.specs.Held.{Holding};

    /// A buffer that holds nothing. It takes memory for `SIZE` octets, and no other call takes any.
    pub fn new(alloc: Global) -> Result<Buffer<SIZE>, Memory>
        ensures { IfOk result (λ buffer. buffer ≡ record { given = []; held = [] }) }
    {
        Ok(Buffer {
            octets: zeros(alloc, SIZE)?,
            from: 0,
            start: 0,
            end: 0,
        })
    }

    /// A buffer that holds these octets, which were taken of the source before.
    pub fn holding(alloc: Global, octets: &[u8]) -> Result<Buffer<SIZE>, Memory>
        requires { length octets.now ≤ SIZE }
        ensures { IfOk result (λ buffer. buffer ≡ record { given = []; held = octets.now }) }
    {
        let mut room = zeros(alloc, SIZE)?;
        copy_to_front(room.as_mut_slice(), octets);
        Ok(Buffer {
            octets: room,
            from: 0,
            start: 0,
            end: octets.len(),
        })
    }

    /// The octets that are held.
    pub fn held(&self) -> &[u8]
        ensures { result.now ≡ self.now.held }
    {
        &self.octets[self.start..self.end]
    }

    /// The octets that were handed out last.
    pub fn given(&self) -> &[u8]
        ensures { result.now ≡ self.now.given }
    {
        &self.octets[self.from..self.start]
    }

    /// Hands out the first octets of those held.
    pub fn hand_out(&mut self, count: usize)
        requires { count ≤ length self.old.held }
        ensures given { self.new.given ≡ take count self.old.held }
        ensures held { self.new.held ≡ drop count self.old.held }
    {
        self.from = self.start;
        self.start += count;
    }

    /// Reads once of the source, as much as the read gives, and answers how many octets that were:
    /// 0 only at the end.
    fn fill<D: Door>(&mut self, source: &mut D) -> Result<usize, Failed>
        requires { length self.old.held < SIZE }
        ensures grown { IfOk result (λ n. length self.new.held ≡ length self.old.held + n) }
        ensures octets { D.tells → IfOk result (λ _.
            Fetched self.old.held self.new.held (D.view source.old).state (D.view source.new).state) }
        ensures end { D.tells → IfOk result (λ n. n ≡ 0 → (D.view source.new).state.left ≡ []) }
        ensures given { self.new.given ≡ [] }
        ensures kept { OnErr result (self.new.held ≡ self.old.held) }
        ensures err { D.tells → OnErr result ((D.view source.new).state ≡ (D.view source.old).state) }
        ensures cause { Counts (is_err result) (D.view source.old).reads (D.view source.new).reads }
        ensures stop { OnErr result (StopsAtFailure (D.view source.new).failed (D.view source.old).reads (D.view source.new).reads) }
        ensures turns { (D.view source.new).turns ≡ (D.view source.old).turns }
        ensures writes { (D.view source.new).writes ≡ (D.view source.old).writes }
    {
        let (start, end) = (self.start, self.end);
        self.from = 0;
        self.start = 0;
        self.end = end - start;
        let count = refill(source, self.octets.as_mut_slice(), start, end)?;
        self.end += count;
        Ok(count)
    }
}

/// Reads of the source until the buffer holds so many octets, or the source is at its end. It
/// answers whether so many are held. Where they were before, nothing is read; else nothing counts as
/// handed out any more.
pub fn fetch<D: Door, const SIZE: usize>(
    source: &mut D,
    buffer: &mut Buffer<SIZE>,
    count: usize,
) -> Result<bool, Failed>
    requires { count ≤ SIZE }
    ensures enough { IfOk result (λ enough. enough ≡ nat_le count (length buffer.new.held)) }
    ensures end { D.tells → IfOk result (λ enough. enough ≡ false → (D.view source.new).state.left ≡ []) }
    ensures short { OnErr result (length buffer.new.held < count) }
    ensures octets { D.tells → Fetched buffer.old.held buffer.new.held (D.view source.old).state (D.view source.new).state }
    ensures untouched { count ≤ length buffer.old.held → (source.new ≡ source.old) × (buffer.new.held ≡ buffer.old.held) }
    ensures kept { count ≤ length buffer.old.held → buffer.new.given ≡ buffer.old.given }
    ensures given { length buffer.old.held < count → buffer.new.given ≡ [] }
    ensures cause { Counts (is_err result) (D.view source.old).reads (D.view source.new).reads }
    ensures stop { OnErr result (StopsAtFailure (D.view source.new).failed (D.view source.old).reads (D.view source.new).reads) }
    ensures turns { (D.view source.new).turns ≡ (D.view source.old).turns }
    ensures writes { (D.view source.new).writes ≡ (D.view source.old).writes }
{
    'more: while buffer.held().len() < count {
        if buffer.fill(source)? == 0 {
            return Ok(false);
        }
    }
    Ok(true)
}

/// How many octets to ask for behind so many packets or blocks: those of the next head, or, where
/// there are as many as may be, one, which tells whether the octets end.
pub fn wanted_behind(count: u32, most: u32, head_len: usize) -> usize
    requires { 1 ≤ head_len }
    ensures some { 1 ≤ result }
    ensures most { result ≤ head_len }
    ensures head { count < most → result ≡ head_len }
    ensures beyond { most ≤ count → result ≡ 1 }
{
    if count < most { head_len } else { 1 }
}
