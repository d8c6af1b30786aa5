//! One connection of a door in memory.
ghost use Rattle.std.specs.Prelude.{◌≡◌, ◌+◌, ◌-◌, ◌≤◌, ◌<◌, ◌++◌, ◌^◌, [], length, take, drop, min, slice_index_or, IfOk};
ghost use Rattle.mud_world.specs.Wire.{fresh, left_of, rest_of, WireRead};

use mud_base::{Bytes, Memory};
use std::alloc::Global;
use std::marker::Model;

/// What was taken of a connection's pieces, and what was written to it.
#[derive(Drop)]
pub(crate) struct Wire {
    /// How many pieces were taken whole.
    piece: usize,
    /// How many octets were taken of the pieces that follow.
    offset: usize,
    /// What was written, with memory for all the room.
    written: Vec<u8>,
    /// The most octets that can be written.
    room: usize,
}

impl Model for Wire {
    ghost use Rattle.std.specs.Prelude.{◌≤◌, vec_len, vec_capacity};
    ghost use Rattle.mud_world.specs.Wire.{WireState};

    ghost Value = { WireState };

    ghost view = { λ w. record { piece = w.piece; offset = w.offset; written = w.written.items; room = w.room } };

    ghost invariant = { λ w. (vec_len w.written ≤ w.room) × (w.room ≤ vec_capacity w.written) };
}

impl Wire {
    /// A wire of which nothing was taken, with memory for `room` octets to be written to it.
    pub(crate) fn new(alloc: Global, room: usize) -> Result<Wire, Memory>
        ensures { IfOk result (λ wire. wire ≡ fresh room) }
    {
        let written = Vec::with_capacity(alloc, room)?;
        Ok(Wire {
            piece: 0,
            offset: 0,
            written,
            room,
        })
    }

    /// What was written to it.
    pub(crate) fn written(&self) -> &[u8]
        ensures { result.now ≡ self.now.written }
    {
        self.written.as_slice()
    }

    /// How many octets can still be written.
    pub(crate) fn room_left(&self) -> usize
        ensures { result ≡ self.now.room - length self.now.written }
    {
        self.room - self.written.len()
    }

    /// Writes octets. It takes no memory.
    pub(crate) fn write(&mut self, octets: &[u8])
        requires { length octets.now ≤ self.old.room - length self.old.written }
        ensures { self.new ≡ record self.old { written = self.old.written ++ octets.now } }
    {
        let _ = self.written.extend_from_slice(octets);
    }

    /// Reads octets into the front of the buffer, at most those of one piece, and answers how many.
    /// It answers 0 only for an empty buffer or where no octets are left.
    pub(crate) fn read(&mut self, pieces: &[Bytes], buf: &mut [u8]) -> usize
        ensures { WireRead pieces.now self.old self.new result buf.new }
    {
        let (piece, offset) = next_octet(pieces, self.piece, self.offset);
        let count = copy_front(octets_at(pieces, piece, offset), buf);
        self.piece = piece;
        self.offset = offset + count;
        count
    }
}

/// The same octet, but in a piece that has octets behind it, if there is one.
fn next_octet(pieces: &[Bytes], piece: usize, offset: usize) -> (usize, usize)
    ensures left { left_of result.1 (drop result.0 pieces.now) ≡ left_of offset (drop piece pieces.now) }
    ensures rest { rest_of result.1 (drop result.0 pieces.now) ≡ rest_of offset (drop piece pieces.now) }
    ensures there { result.0 < length pieces.now → result.1 < length (slice_index_or pieces.now result.0 []) }
{
    let mut at = piece;
    let mut behind = offset;
    'pieces: while at < pieces.len() {
        let len = pieces[at].len();
        if behind < len {
            return (at, behind);
        }
        behind -= len;
        at += 1;
    }
    (at, behind)
}

/// The octets of a piece behind an offset, none where there is no such piece.
fn octets_at(pieces: &[Bytes], piece: usize, offset: usize) -> &[u8]
    requires { piece < length pieces.now → offset < length (slice_index_or pieces.now piece []) }
    ensures octets { result.now ≡ rest_of offset (drop piece pieces.now) }
    ensures within { offset + length result.now < 2 ^ 64 }
{
    match pieces.get(piece) {
        Some(octets) => &octets.octets()[offset..],
        None => &[],
    }
}

/// Copies octets into the front of a buffer, as many as fit, and answers how many.
fn copy_front(octets: &[u8], buf: &mut [u8]) -> usize
    ensures count { result ≡ min (length buf.new) (length octets.now) }
    ensures octets { take result buf.new ≡ take result octets.now }
{
    let count = octets.len().min(buf.len());
    buf[..count].copy_from_slice(&octets[..count]);
    count
}
