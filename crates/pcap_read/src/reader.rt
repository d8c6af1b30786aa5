//! Where a reader of a capture stands, beside the source that it is lent at each call.
ghost use Rattle.std.specs.Prelude.{◌≡◌, ◌<◌, ◌≤◌, length, false, true, is_some, IsSome, IsTrue, IfOk, IfErr, OnOk, OnErr, Err, Some, None};
ghost use Rattle.mud_world.specs.Causes.{Counts, StopsAtFailure};
ghost use Rattle.pcap_read.specs.declared.fault.CapFault.{CapFault};
ghost use Rattle.pcap_read.specs.declared.stage.Stage.TheVariants.{Failed as HasFailed};
ghost use Rattle.pcap_read.specs.Fault.{has_failed};
ghost use Rattle.read_buffer.specs.Packets.{with_next};
ghost use Rattle.pcap_read.specs.Parts.{is_broken, most_to_come};
ghost use Rattle.read_buffer.specs.Reading.{Follows};
ghost use Rattle.pcap_read.specs.Reading.{EndsIn, fails};
ghost use Rattle.pcap_read.specs.CaptureState as spec;
ghost use Rattle.pcap_read.specs.CaptureState.{AtEnd, at_start, at_start_holding, to_come};

use crate::fault::CapFault;
use crate::head::{MOST_OCTETS, is_decided};
use crate::read::step;
use crate::stage::{Current, Progress, Stage};
use mud_base::Memory;
use mud_world::Door;
use read_buffer::Buffer;
use std::alloc::Global;
use std::marker::Model;

/// A packet of a capture.
#[derive(Clone, Copy)]
pub struct Captured<'a> {
    /// The number of the packet, counted from 1.
    pub number: u32,
    /// The octet of the capture where the packet's head begins, counted from 0.
    pub at: u64,
    /// The whole seconds of the packet's time, since 1970.
    pub seconds: u32,
    /// The octets that were captured.
    pub octets: &'a [u8],
}

/// A reader of a capture. Its source is lent at each call, and all calls want the same one, at the
/// same connection.
#[derive(Drop)]
pub struct Reader {
    buffer: Buffer<MOST_OCTETS>,
    progress: Progress,
    current: Option<Current>,
}

impl Model for Reader {
    ghost use Rattle.pcap_read.specs.Parts.{packet_in};
    ghost use Rattle.pcap_read.specs.Reading.{IsWithin};
    ghost use Rattle.pcap_read.specs.CaptureState.{CaptureState};

    ghost Value = { CaptureState };

    ghost view = { λ r. record {
      progress = r.progress;
      held = r.buffer.held;
      packet = packet_in r.current r.buffer.given;
    } };

    ghost invariant = { λ r. IsWithin r.progress };
}

impl Reader {
    /// A reader that has read nothing. It takes memory for 262,144 octets, and no other call takes
    /// any.
    pub fn new(alloc: Global) -> Result<Reader, Memory>
        ensures { IfOk result (λ reader. reader ≡ at_start) }
    {
        Ok(Reader::over(Buffer::new(alloc)?))
    }

    /// A reader that begins with octets which were taken of the source before. It takes memory as
    /// `new` does.
    pub fn holding(alloc: Global, octets: &[u8]) -> Result<Reader, Memory>
        requires { length octets.now ≤ 262144 }
        ensures { IfOk result (λ reader. reader ≡ at_start_holding octets.now) }
    {
        Ok(Reader::over(Buffer::holding(alloc, octets)?))
    }

    /// A reader that has read nothing but what the buffer holds.
    fn over(buffer: Buffer<MOST_OCTETS>) -> Reader
        ensures { result ≡ at_start_holding buffer.held }
    {
        Reader {
            buffer,
            progress: Progress {
                stage: Stage::Start,
                count: 0,
                offset: 0,
            },
            current: None,
        }
    }

    /// Goes on to the next packet. It answers false exactly at the end of the octets between two
    /// packets, and reads the source only where the octets held don't tell what comes next. After a
    /// fault it answers the same fault again, and reads nothing.
    pub fn advance<D: Door>(&mut self, source: &mut D) -> Result<bool, CapFault>
        ensures more { IfOk result (λ more. more ≡ is_some self.new.packet) }
        ensures going { OnOk result (is_broken self.new.progress.stage ≡ false) }
        ensures fewer { IfOk result (λ more. more ≡ true → most_to_come self.new.progress < most_to_come self.old.progress) }
        ensures next { D.tells → OnOk result (
            Follows (to_come self.old) (λ octets. with_next self.new.packet (to_come self.new octets)) (D.view source.old).state (D.view source.new).state) }
        ensures end { D.tells → IfOk result (λ more. more ≡ false → AtEnd self.new (D.view source.new).state) }
        ensures fault { D.tells → IfErr result (λ fault. EndsIn fault (to_come self.old) (D.view source.old).state (D.view source.new).state) }
        ensures failed { IfErr result (λ fault. self.new.progress.stage ≡ HasFailed fault) }
        ensures none { OnErr result (self.new.packet ≡ None) }
        ensures again { (fault : CapFault) → self.old.progress.stage ≡ HasFailed fault → (result ≡ Err fault) × (source.new ≡ source.old) }
        ensures ready { IsTrue (spec.is_ready self.old) → source.new ≡ source.old }
        ensures cause { Counts (fails self.old.progress.stage (has_failed result)) (D.view source.old).reads (D.view source.new).reads }
        ensures stop { IsTrue (fails self.old.progress.stage (has_failed result))
            → StopsAtFailure (D.view source.new).failed (D.view source.old).reads (D.view source.new).reads }
        ensures turns { (D.view source.new).turns ≡ (D.view source.old).turns }
        ensures writes { (D.view source.new).writes ≡ (D.view source.old).writes }
    {
        let progress = self.progress;
        match step(source, &mut self.buffer, progress) {
            Ok(next) => {
                self.progress = next.progress;
                self.current = next.current;
                Ok(next.current.is_some())
            }
            Err(fault) => {
                self.progress.stage = Stage::Failed(fault);
                self.current = None;
                Err(fault)
            }
        }
    }

    /// The packet to which the last `advance` went on.
    pub fn packet(&self) -> Captured<'_>
        requires { IsSome self.now.packet }
        ensures { self.now.packet ≡ Some (record {
          number = result.number;
          offset = result.at;
          seconds = result.seconds;
          octets = result.octets.now;
        }) }
    {
        let current = self.current.unwrap();
        Captured {
            number: current.number,
            at: current.at,
            seconds: current.seconds,
            octets: self.buffer.given(),
        }
    }

    /// Whether the next `advance` answers without a read.
    pub fn is_ready(&self) -> bool
        ensures { result ≡ spec.is_ready self.now }
    {
        match self.progress.stage {
            Stage::Start => false,
            Stage::Reading(order) => is_decided(order, self.progress.count, self.buffer.held()),
            Stage::Failed(_) => true,
        }
    }
}
