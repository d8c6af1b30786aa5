//! A capture, read packet by packet.
ghost use Rattle.std.specs.Prelude.{◌≡◌, ◌≢◌, IfSome, ◌<◌, ◌≤◌, [], length, take, false, true, is_some, IsSome, IsTrue, IfOk, IfErr, OnOk, OnErr, is_err, Ok, Err, Some, None};
ghost use Rattle.mud_world.specs.Calls.{counted};
ghost use Rattle.mud_world.specs.Causes.{Counts, StopsAtFailure};
ghost use Rattle.mud_world.specs.Door.{put_out};
ghost use Rattle.pcap_read.specs.Captured.{packet_of};
ghost use Rattle.pcapng_read.specs.declared.fault.NgFault.{NgFault};
ghost use Rattle.pcapng_read.specs.declared.fault.NgFault.TheVariants.{ReadFault};
ghost use Rattle.pcapng_read.specs.Fault.{has_failed};
ghost use Rattle.read_buffer.specs.Packets.{whole, broken, with_packet};
ghost use Rattle.pcapng_read.specs.Blocks.{NgPackets};
ghost use Rattle.read_buffer.specs.Packets.{with_next};
ghost use Rattle.pcapng_read.specs.Parts.{most_to_come};
ghost use Rattle.read_buffer.specs.Reading.{Follows};
ghost use Rattle.pcapng_read.specs.Reading.{EndsIn, fails};
ghost use Rattle.pcapng_read.specs.CaptureState as spec;
ghost use Rattle.pcapng_read.specs.CaptureState.{AtEnd, at_start, to_come};

use crate::fault::NgFault;
use crate::reader::NgReader;
use mud_base::Memory;
use mud_world::{Door, Failed};
use pcap_read::Captured;
use std::alloc::Global;
use std::marker::Model;

/// A capture that is read of a source, at its current connection, through one buffer.
#[derive(Drop)]
pub struct NgCapture<S> {
    source: S,
    reader: NgReader,
}

impl<S> Model for NgCapture<S> {
    ghost use Rattle.pcapng_read.specs.CaptureState.{NgState};

    ghost Value = { S × NgState };

    ghost view = { λ c. (c.source, c.reader) };
}

impl<S: Door> NgCapture<S> {
    ghost use Rattle.std.specs.Borrow.{sem};
    ghost use Rattle.std.specs.Io.BufRead.{Rests};
    ghost use Rattle.pcapng_read.specs.Next.{WentOn};
    ghost use Rattle.pcapng_read.specs.contracts.capture.NgCapture.{the_row};

    /// A capture of this source, of which nothing was read. It takes memory for 524,288 octets, and
    /// no other call takes any.
    pub fn new(alloc: Global, source: S) -> Result<NgCapture<S>, Memory>
    where
        S: Drop,
        ensures source { IfOk result (λ capture. capture.0 ≡ source) }
        ensures start { IfOk result (λ capture. capture.1 ≡ at_start) }
    {
        let reader = NgReader::new(alloc)?;
        Ok(NgCapture { source, reader })
    }

    /// Goes on to the next packet. It answers false exactly at the end of the octets between two
    /// packets, and reads the source only where the octets held don't tell what comes next. After a
    /// fault it answers the same fault again, and reads nothing.
    pub fn advance(&mut self) -> Result<bool, NgFault>
        ensures more { IfOk result (λ more. more ≡ is_some self.new.1.packet) }
        ensures going { OnOk result (self.new.1.fault ≡ None) }
        ensures fewer { IfOk result (λ more.
            more ≡ true → most_to_come self.new.1.fault self.new.1.standing < most_to_come self.old.1.fault self.old.1.standing) }
        ensures next { S.tells → OnOk result (
            Follows (to_come self.old.1) (λ octets. with_next self.new.1.packet (to_come self.new.1 octets))
            (S.view self.old.0).state (S.view self.new.0).state) }
        ensures end { S.tells → IfOk result (λ more. more ≡ false → AtEnd self.new.1 (S.view self.new.0).state) }
        ensures fault { S.tells → IfErr result (λ fault. EndsIn fault (to_come self.old.1) (S.view self.old.0).state (S.view self.new.0).state) }
        ensures failed { IfErr result (λ fault. self.new.1.fault ≡ Some fault) }
        ensures none { OnErr result (self.new.1.packet ≡ None) }
        ensures again { (fault : NgFault) → self.old.1.fault ≡ Some fault → (result ≡ Err fault) × (self.new.0 ≡ self.old.0) }
        ensures ready { IsTrue (spec.is_ready self.old.1) → self.new.0 ≡ self.old.0 }
        ensures cause { Counts (fails self.old.1.fault (has_failed result)) (S.view self.old.0).reads (S.view self.new.0).reads }
        ensures stop { IsTrue (fails self.old.1.fault (has_failed result))
            → StopsAtFailure (S.view self.new.0).failed (S.view self.old.0).reads (S.view self.new.0).reads }
        ensures turns { (S.view self.new.0).turns ≡ (S.view self.old.0).turns }
        ensures writes { (S.view self.new.0).writes ≡ (S.view self.old.0).writes }
    {
        self.reader.advance(&mut self.source)
    }

    /// The packet to which the last `advance` went on.
    pub fn packet(&self) -> Captured<'_>
        requires { IsSome self.now.1.packet }
        ensures { self.now.1.packet ≡ Some (record {
          number = result.number;
          offset = result.at;
          seconds = result.seconds;
          octets = result.octets.now;
        }) }
    {
        self.reader.packet()
    }

    /// The next packet, or None at the end of the octets between two blocks: `advance` and
    /// `packet` in one call. Once the packet isn't borrowed any more, the capture stands where
    /// `advance` leaves it.
    pub fn next(&mut self) -> Result<Option<Captured<'_>>, NgFault>
        ensures* stands { sem 𝓛 (Rests (the_row S.row) self.entry
            (WentOn S.tells S.view self.old result)) }
        ensures found { S.tells → IfOk result (λ found. IfSome found (λ packet.
            (later : NgPackets) × (to_come self.old.1 (S.view self.old.0).state.left ≡ with_packet (packet_of packet) later))) }
        ensures end { S.tells → IfOk result (λ found. found ≡ None → to_come self.old.1 (S.view self.old.0).state.left ≡ whole) }
        ensures fault { S.tells → IfErr result (λ fault.
            fault ≢ ReadFault → to_come self.old.1 (S.view self.old.0).state.left ≡ broken fault) }
        ensures again { (fault : NgFault) → self.old.1.fault ≡ Some fault → result ≡ Err fault }
    {
        if self.advance()? {
            return Ok(Some(self.packet()));
        }
        Ok(None)
    }

    /// Whether a fault was answered, or the packet to which the next `advance` goes on is held whole:
    /// then it answers without a read.
    pub fn is_ready(&self) -> bool
        ensures { result ≡ spec.is_ready self.now.1 }
    {
        self.reader.is_ready()
    }

    /// Writes to the source, as its own `write` does. Nothing else changes.
    pub fn write(&mut self, piece: &[u8]) -> Result<usize, Failed>
        ensures kept { self.new.1 ≡ self.old.1 }
        ensures within { IfOk result (λ n. n ≤ length piece.now) }
        ensures some { IfOk result (λ n. 0 < length piece.now → 0 < n) }
        ensures octets { S.tells → IfOk result (λ n. (S.view self.new.0).state ≡ put_out (take n piece.now) (S.view self.old.0).state) }
        ensures nowhere { S.tells → (S.view self.old.0).state.stands ≡ false → OnOk result (piece.now ≡ []) }
        ensures err { S.tells → OnErr result ((S.view self.new.0).state ≡ (S.view self.old.0).state) }
        ensures cause { Counts (is_err result) (S.view self.old.0).writes (S.view self.new.0).writes }
        ensures count { (S.view self.new.0).writes ≡ counted (is_err result) (S.view self.old.0).writes }
        ensures last { (S.view self.new.0).failed ≡ is_err result }
        ensures turns { (S.view self.new.0).turns ≡ (S.view self.old.0).turns }
        ensures reads { (S.view self.new.0).reads ≡ (S.view self.old.0).reads }
    {
        self.source.write(piece)
    }
}
