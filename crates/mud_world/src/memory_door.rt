//! A door in memory.
ghost use Rattle.std.specs.Prelude.{◌≡◌, ◌+◌, if◌then◌else◌, ◌<◌, ◌≤◌, [], slice_index_or, length, map, true, replicate, IfOk};
ghost use Rattle.mud_world.specs.Wire.{fresh};
ghost use Rattle.mud_world.specs.MemoryConnections.{room_of as wire_room};

use crate::calls::{is_to_fail, raise};
use crate::door::Door;
use crate::fault::Failed;
use crate::wire::Wire;
use mud_base::{Bytes, Listed, Memory};
use std::alloc::Global;

/// How often each call of a door was made. A number that has reached the last u64 stays there.
#[derive(Clone, Copy)]
pub struct DoorCalls {
    pub bind: u64,
    pub next: u64,
    pub read: u64,
    pub write: u64,
}

/// A door in memory. A call fails exactly where its number is in the list of its method, counted
/// from 1, and `write` also where no octet of a piece that isn't empty can be written: at no
/// connection, or where the connection's room is used up.
#[derive(Drop)]
pub struct MemoryDoor {
    /// The connections, each the pieces in which its octets come.
    pub inputs: Listed<Listed<Bytes>>,
    /// The numbers of the calls of `bind` that are to fail.
    pub failing_bind: Listed<u64>,
    /// The numbers of the calls of `next` that are to fail.
    pub failing_next: Listed<u64>,
    /// The numbers of the calls of `read` that are to fail.
    pub failing_read: Listed<u64>,
    /// The numbers of the calls of `write` that are to fail.
    pub failing_write: Listed<u64>,
    /// How often `bind` or `next` has failed.
    pub turn_count: u64,
    /// How often `read` has failed.
    pub read_count: u64,
    /// How often `write` has failed.
    pub write_count: u64,
    /// How often each call was made.
    pub calls: DoorCalls,
    bound: Option<u16>,
    stands: bool,
    at: usize,
    room: usize,
    wires: Vec<Wire>,
    failed: bool,
    ghost wire_each: { length wires.items ≡ length inputs },
    ghost within: { at ≤ length wires.items },
    ghost stands_within: { stands ≡ true → at < length wires.items },
    ghost one_room: { map wire_room wires.items ≡ replicate (length wires.items) room },
}

impl MemoryDoor {
    ghost use Rattle.mud_world.specs.Door.{connections, outputs};
    ghost use Rattle.mud_world.specs.MemoryDoor.{memory_state, room_left, IsNew};

    /// A door to these connections, each a list of pieces, with memory for `room` octets to be
    /// written to each. It stands at the first of them, and no call is to fail.
    pub fn new(
        alloc: Global,
        inputs: Listed<Listed<Bytes>>,
        room: usize,
    ) -> Result<MemoryDoor, Memory>
        requires { 0 < length inputs }
        ensures { IfOk result (IsNew inputs room) }
    {
        let wires = fresh_wires(alloc, inputs.len(), room)?;
        Ok(MemoryDoor {
            inputs,
            failing_bind: Listed::new(alloc),
            failing_next: Listed::new(alloc),
            failing_read: Listed::new(alloc),
            failing_write: Listed::new(alloc),
            turn_count: 0,
            read_count: 0,
            write_count: 0,
            calls: DoorCalls {
                bind: 0,
                next: 0,
                read: 0,
                write: 0,
            },
            bound: None,
            stands: true,
            at: 0,
            room,
            wires,
            failed: false,
        })
    }

    /// How many connections there are.
    pub fn connection_count(&self) -> usize
        ensures { result ≡ length (connections (memory_state self.now)) }
    {
        self.wires.len()
    }

    /// The octets that were written to a connection. Connections are counted from 0.
    pub fn written(&self, connection: usize) -> &[u8]
        requires { connection < length (connections (memory_state self.now)) }
        ensures { result.now ≡ slice_index_or (outputs (memory_state self.now)) connection [] }
    {
        self.wires[connection].written()
    }

    /// How many octets can still be written to the connection, 0 where the door stands at none.
    pub fn room_left(&self) -> usize
        ensures { result ≡ room_left self.now }
    {
        if self.stands {
            self.wires[self.at].room_left()
        } else {
            0
        }
    }
}

/// So many wires of which nothing was taken.
fn fresh_wires(alloc: Global, count: usize, room: usize) -> Result<Vec<Wire>, Memory>
    ensures { IfOk result (λ wires. wires.items ≡ replicate count (fresh room)) }
{
    let mut wires = Vec::new(alloc);
    for i in 0..count {
        wires.push(Wire::new(alloc, room)?)?;
    }
    Ok(wires)
}

/// The pieces of a connection.
fn pieces_at(inputs: &Listed<Listed<Bytes>>, at: usize) -> &[Bytes]
    requires { at < length inputs.now }
    ensures { result.now ≡ slice_index_or inputs.now at [] }
{
    inputs.as_slice()[at].as_slice()
}

/// The index behind that of the connection at which a door stands; or, where it stands at none, the
/// index of the next one.
fn index_after(stands: bool, at: usize, count: usize) -> usize
    requires { stands ≡ true → at < count }
    ensures { result ≡ (if stands then at + 1 else at) }
{
    if stands { at + 1 } else { at }
}

#[tactic(auto, unfolding(crate::specs::MemoryDoor::memory_state))]
impl Door for MemoryDoor {
    ghost use Rattle.std.specs.Prelude.{ℕ, ◌+◌, ◌≤◌, false, take, min, IfOk, OnOk, OnErr, is_err};
    ghost use Rattle.mud_world.specs.Calls.{counted, next_call};
    ghost use Rattle.mud_world.specs.Causes.{Counts};
    ghost use Rattle.mud_world.specs.Door.{Reads, bound_anew, departed, gone_on, has_more, put_out};
    ghost use Rattle.mud_world.specs.View.{viewed};
    ghost use Rattle.mud_world.specs.MemoryDoor.{memory_state, bind_fails, next_fails, read_fails, write_fails, room_left, piece_left, SameScript};

    ghost tells = { Unit {0} };

    ghost view = { λ door. viewed (memory_state door) door.turn_count door.read_count door.write_count door.failed };

    fn bind(&mut self, port: u16) -> Result<(), Failed>
        ensures ok { OnOk result (memory_state self.new ≡ bound_anew port (memory_state self.old)) }
        ensures err { OnErr result (memory_state self.new ≡ memory_state self.old) }
        ensures fails { is_err result ≡ bind_fails self.old }
        ensures count { self.new.turn_count ≡ counted (is_err result) self.old.turn_count }
        ensures last { self.new.failed ≡ is_err result }
        ensures reads { self.new.read_count ≡ self.old.read_count }
        ensures writes { self.new.write_count ≡ self.old.write_count }
        ensures calls { self.new.calls ≡ record self.old.calls { bind = next_call self.old.calls.bind } }
        ensures script { SameScript self.old self.new }
        ensures cause { Counts (is_err result) self.old.turn_count self.new.turn_count }
    {
        if is_to_fail(&self.failing_bind, &mut self.calls.bind) {
            raise(&mut self.turn_count);
            self.failed = true;
            return Err(Failed);
        }
        self.failed = false;
        self.bound = Some(port);
        self.stands = false;
        Ok(())
    }

    fn next(&mut self) -> Result<bool, Failed>
        ensures ok { IfOk result (λ more.
            (more ≡ has_more (memory_state self.old).ahead)
            × (memory_state self.new ≡ gone_on (memory_state self.old) (memory_state self.old).ahead)) }
        ensures err { OnErr result (memory_state self.new ≡ departed (memory_state self.old)) }
        ensures fails { is_err result ≡ next_fails self.old }
        ensures count { self.new.turn_count ≡ counted (is_err result) self.old.turn_count }
        ensures last { self.new.failed ≡ is_err result }
        ensures reads { self.new.read_count ≡ self.old.read_count }
        ensures writes { self.new.write_count ≡ self.old.write_count }
        ensures calls { self.new.calls ≡ record self.old.calls { next = next_call self.old.calls.next } }
        ensures script { SameScript self.old self.new }
        ensures cause { Counts (is_err result) self.old.turn_count self.new.turn_count }
    {
        self.at = index_after(self.stands, self.at, self.wires.len());
        self.stands = false;
        if is_to_fail(&self.failing_next, &mut self.calls.next) {
            raise(&mut self.turn_count);
            self.failed = true;
            return Err(Failed);
        }
        self.failed = false;
        self.stands = self.at < self.wires.len();
        Ok(self.stands)
    }

    fn read(&mut self, buf: &mut [u8]) -> Result<usize, Failed>
        ensures within { IfOk result (λ n. n ≤ length buf.new) }
        ensures octets { Reads (memory_state self.old) (memory_state self.new) result buf.new }
        ensures nowhere { (memory_state self.old).stands ≡ false → IfOk result (λ n. n ≡ 0) }
        ensures err { OnErr result (memory_state self.new ≡ memory_state self.old) }
        ensures piece { IfOk result (λ n. n ≡ min (length buf.new) (length (piece_left self.old))) }
        ensures fails { is_err result ≡ read_fails self.old }
        ensures count { self.new.read_count ≡ counted (is_err result) self.old.read_count }
        ensures last { self.new.failed ≡ is_err result }
        ensures turns { self.new.turn_count ≡ self.old.turn_count }
        ensures writes { self.new.write_count ≡ self.old.write_count }
        ensures calls { self.new.calls ≡ record self.old.calls { read = next_call self.old.calls.read } }
        ensures script { SameScript self.old self.new }
        ensures cause { Counts (is_err result) self.old.read_count self.new.read_count }
    {
        if is_to_fail(&self.failing_read, &mut self.calls.read) {
            raise(&mut self.read_count);
            self.failed = true;
            return Err(Failed);
        }
        self.failed = false;
        if !self.stands {
            return Ok(0);
        }
        let pieces = pieces_at(&self.inputs, self.at);
        let wire = &mut self.wires[self.at];
        Ok(wire.read(pieces, buf))
    }

    fn write(&mut self, piece: &[u8]) -> Result<usize, Failed>
        ensures within { IfOk result (λ n. n ≤ length piece.now) }
        ensures some { IfOk result (λ n. 0 < length piece.now → 0 < n) }
        ensures octets { IfOk result (λ n. memory_state self.new ≡ put_out (take n piece.now) (memory_state self.old)) }
        ensures nowhere { (memory_state self.old).stands ≡ false → OnOk result (piece.now ≡ []) }
        ensures err { OnErr result (memory_state self.new ≡ memory_state self.old) }
        ensures room { IfOk result (λ n. n ≡ min (length piece.now) (room_left self.old)) }
        ensures fails { is_err result ≡ write_fails self.old piece.now }
        ensures count { self.new.write_count ≡ counted (is_err result) self.old.write_count }
        ensures last { self.new.failed ≡ is_err result }
        ensures turns { self.new.turn_count ≡ self.old.turn_count }
        ensures reads { self.new.read_count ≡ self.old.read_count }
        ensures calls { self.new.calls ≡ record self.old.calls { write = next_call self.old.calls.write } }
        ensures script { SameScript self.old self.new }
        ensures cause { Counts (is_err result) self.old.write_count self.new.write_count }
    {
        let listed = is_to_fail(&self.failing_write, &mut self.calls.write);
        let count = piece.len().min(self.room_left());
        if listed || (count == 0 && !piece.is_empty()) {
            raise(&mut self.write_count);
            self.failed = true;
            return Err(Failed);
        }
        self.failed = false;
        if self.stands {
            self.wires[self.at].write(&piece[..count]);
        }
        Ok(count)
    }
}
