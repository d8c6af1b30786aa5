//! The reader of a capture in whichever format.
ghost use Rattle.std.specs.Prelude.{◌≡◌, ◌<◌, [], false, true, is_some, IsSome, IsTrue, IfOk, IfErr, OnOk, OnErr, Err, Some, None, ◌∷◌};
ghost use Rattle.mud_world.specs.Causes.{Counts, StopsAtFailure};
ghost use Rattle.mud_world.specs.Whole as whole;
ghost use Rattle.mud_world.specs.Whole.{TookPart};
ghost use Rattle.read_buffer.specs.Packets.{with_next};
ghost use Rattle.read_buffer.specs.Reading.{Follows};
ghost use Rattle.pcap_read.specs.Captured.{packet_of};
ghost use Rattle.run_captures.specs.declared.fault.CaptureFault.{CaptureFault};
ghost use Rattle.std.specs.Str.{bytes_eq};
ghost use Rattle.run_captures.specs.Fault.{has_failed};
ghost use Rattle.run_captures.specs.Reading as spec;
ghost use Rattle.run_captures.specs.Reading.{AtEnd, EndsIn, HasRead, StandsBehind, fails, is_broken, most_to_come, packet_at, to_come};

use crate::fault::CaptureFault;
use crate::first::read_first;
use mud_world::{Door, ReadFault};
use pcap_read::{Captured, Reader};
use pcapng_read::NgReader;
use std::alloc::Global;

/// The first four octets of a capture in pcapng (draft-ietf-opsawg-pcapng, section 4.1).
const NEXT_FIRST: [u8; 4] = [0x0A, 0x0D, 0x0D, 0x0A];

/// Whether these are the first four octets of a capture in pcapng.
fn is_next(first: &[u8]) -> bool
    ensures { result ≡ bytes_eq first.now (0x0A ∷ 0x0D ∷ 0x0D ∷ 0x0A ∷ []) }
{
    first == NEXT_FIRST.as_slice()
}

/// A reader of a capture. Its source is lent at each call, and all calls want the same one, at the
/// same connection.
#[derive(Drop)]
pub enum CaptureReader {
    /// The capture is in the classic format of libpcap.
    Classic(Reader),
    /// The capture is in pcapng.
    Next(NgReader),
}

impl CaptureReader {
    /// Begins to read the capture that the door's connection is. The first four octets say in which
    /// format it is; where there are fewer, it is read as one in the classic format. It takes memory
    /// for 262,144 octets, or for 524,288 in pcapng, and no other call takes any. Where it fails, at
    /// most those four are taken.
    pub fn begin<D: Door>(alloc: Global, door: &mut D) -> Result<CaptureReader, ReadFault>
        ensures begun { D.tells → IfOk result (λ reader. HasRead [] reader (D.view door.old).state (D.view door.new).state) }
        ensures going { IfOk result (λ reader. is_broken reader ≡ false) }
        ensures part { D.tells → OnErr result (TookPart 4 (D.view door.old).state (D.view door.new).state) }
        ensures cause { Counts (whole.has_failed result) (D.view door.old).reads (D.view door.new).reads }
        ensures stop { IsTrue (whole.has_failed result) → StopsAtFailure (D.view door.new).failed (D.view door.old).reads (D.view door.new).reads }
        ensures turns { (D.view door.new).turns ≡ (D.view door.old).turns }
        ensures writes { (D.view door.new).writes ≡ (D.view door.old).writes }
    {
        let first = read_first(door)?;
        if is_next(first.octets()) {
            let reader = NgReader::holding(alloc, first.octets())?;
            return Ok(CaptureReader::Next(reader));
        }
        let reader = Reader::holding(alloc, first.octets())?;
        Ok(CaptureReader::Classic(reader))
    }

    /// Goes on to the next packet. It answers false exactly at the end of the octets between two
    /// packets, and reads the source only where the octets held don't tell what comes next. After a
    /// fault it answers the same fault again, and reads nothing.
    pub fn advance<D: Door>(&mut self, source: &mut D) -> Result<bool, CaptureFault>
        ensures more { IfOk result (λ more. more ≡ is_some (packet_at self.new)) }
        ensures going { OnOk result (is_broken self.new ≡ false) }
        ensures fewer { IfOk result (λ more. more ≡ true → most_to_come self.new < most_to_come self.old) }
        ensures next { D.tells → OnOk result (
            Follows (to_come self.old) (λ octets. with_next (packet_at self.new) (to_come self.new octets)) (D.view source.old).state (D.view source.new).state) }
        ensures end { D.tells → IfOk result (λ more. more ≡ false → AtEnd self.new (D.view source.new).state) }
        ensures fault { D.tells → IfErr result (λ fault. EndsIn fault (to_come self.old) (D.view source.old).state (D.view source.new).state) }
        ensures failed { IfErr result (λ fault. StandsBehind fault self.new) }
        ensures none { OnErr result (packet_at self.new ≡ None) }
        ensures again { (fault : CaptureFault) → StandsBehind fault self.old → (result ≡ Err fault) × (source.new ≡ source.old) }
        ensures ready { IsTrue (spec.is_ready self.old) → source.new ≡ source.old }
        ensures cause { Counts (fails self.old (has_failed result)) (D.view source.old).reads (D.view source.new).reads }
        ensures stop { IsTrue (fails self.old (has_failed result)) → StopsAtFailure (D.view source.new).failed (D.view source.old).reads (D.view source.new).reads }
        ensures turns { (D.view source.new).turns ≡ (D.view source.old).turns }
        ensures writes { (D.view source.new).writes ≡ (D.view source.old).writes }
    {
        match self {
            CaptureReader::Classic(reader) => Ok(reader.advance(source)?),
            CaptureReader::Next(reader) => Ok(reader.advance(source)?),
        }
    }

    /// The packet to which the last `advance` went on.
    pub fn packet(&self) -> Captured<'_>
        requires { IsSome (packet_at self.now) }
        ensures { packet_at self.now ≡ Some (packet_of result) }
    {
        match self {
            CaptureReader::Classic(reader) => reader.packet(),
            CaptureReader::Next(reader) => reader.packet(),
        }
    }

    /// Whether the next `advance` answers without a read.
    pub fn is_ready(&self) -> bool
        ensures { result ≡ spec.is_ready self.now }
    {
        match self {
            CaptureReader::Classic(reader) => reader.is_ready(),
            CaptureReader::Next(reader) => reader.is_ready(),
        }
    }
}
