//! The command `frames`: the line of each packet of a capture.
mod lines;

use lines::append_packet;
use mud_base::{Bytes, Memory};
use pcap_read::Captured;
use run_captures::PacketLines;
use std::alloc::Global;

/// The lines of `frames`: that of a packet doesn't depend on the packets before it.
#[derive(Clone, Copy)]
pub struct FrameLines;

impl PacketLines for FrameLines {
    ghost use Rattle.run_captures.specs.Fold.{no_ending};
    ghost use Rattle.mud_cli.specs.Frames.Lines.{frame_step};

    ghost State = { Unit {0} };

    ghost keeps = { λ _ _. Unit {0} };

    ghost step = { frame_step };

    ghost ending = { no_ending };

    fn append_line(
        &mut self,
        alloc: Global,
        lines: &mut Bytes,
        packet: &Captured<'_>,
    ) -> Result<(), Memory> {
        append_packet(alloc, lines, packet)
    }

    fn append_last(&self, _alloc: Global, _lines: &mut Bytes) -> Result<(), Memory> {
        Ok(())
    }
}
