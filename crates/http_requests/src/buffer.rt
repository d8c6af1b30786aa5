//! The one buffer for the heads and bodies of requests.
ghost use Rattle.std.specs.Prelude.{◌≡◌, ◌+◌, ◌<◌, ◌≤◌, [], length, drop, IfOk, OnErr, is_err};
ghost use Rattle.http_requests.specs.Doors.{ReadsAlone};
ghost use Rattle.http_requests.specs.Received.{Grown, Received};

use mud_base::Memory;
use mud_world::{Door, Failed};
use read_buffer::{refill, zeros};
use std::alloc::Global;
use std::marker::Model;

/// How many octets fit: the longest head and the longest body.
const CAPACITY: usize = 532_480;

/// The octets that were taken of a connection and not yet answered. Contracts see it as the list of
/// them.
#[derive(Drop)]
pub struct RequestBuffer {
    octets: Vec<u8>,
    start: usize,
    end: usize,
}

impl Model for RequestBuffer {
    ghost use Rattle.std.specs.Prelude.{◌≡◌, ◌≤◌, ℕ, List, length, slice_range};

    ghost Value = { List ℕ };

    ghost view = { λ b. slice_range b.octets.items b.start b.end };

    ghost invariant = { λ b. (b.start ≤ b.end) × (b.end ≤ length b.octets.items) × (length b.octets.items ≡ 532480) };
}

impl RequestBuffer {
    /// A buffer with nothing in it. It takes all the memory that it will ever take.
    pub fn new(alloc: Global) -> Result<RequestBuffer, Memory>
        ensures { IfOk result (λ buffer. buffer ≡ []) }
    {
        Ok(RequestBuffer {
            octets: zeros(alloc, CAPACITY)?,
            start: 0,
            end: 0,
        })
    }

    /// The octets.
    pub fn octets(&self) -> &[u8]
        ensures value { result.now ≡ self.now }
        ensures most { length result.now ≤ 532480 }
    {
        &self.octets[self.start..self.end]
    }

    /// Takes the first octets away.
    pub fn consume(&mut self, count: usize)
        requires { count ≤ length self.old }
        ensures { self.new ≡ drop count self.old }
    {
        self.start += count;
    }

    /// Takes all octets away.
    pub fn clear(&mut self)
        ensures { self.new ≡ [] }
    {
        self.start = 0;
        self.end = 0;
    }

    /// Reads once of the door, as much as the read gives, and answers how many octets that were: 0
    /// only at the end of the connection.
    pub(crate) fn fill<D: Door>(&mut self, door: &mut D) -> Result<usize, Failed>
        requires { length self.old < 532480 }
        ensures grown { IfOk result (λ n. length self.new ≡ length self.old + n) }
        ensures octets { D.tells → IfOk result (λ _.
            Received self.old self.new (D.view door.old).state (D.view door.new).state) }
        ensures end { D.tells → IfOk result (λ n. n ≡ 0 → (D.view door.new).state.left ≡ []) }
        ensures front { Grown self.old self.new }
        ensures kept { OnErr result (self.new ≡ self.old) }
        ensures err { D.tells → OnErr result ((D.view door.new).state ≡ (D.view door.old).state) }
        ensures calls { ReadsAlone (is_err result) (D.view door.old) (D.view door.new) }
    {
        let (start, end) = (self.start, self.end);
        self.start = 0;
        self.end = end - start;
        let count = refill(door, self.octets.as_mut_slice(), start, end)?;
        self.end += count;
        Ok(count)
    }
}
