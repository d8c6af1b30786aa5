//! Why the packets of a capture end, in whichever format.
ghost use Rattle.std.specs.Prelude.{◌≡◌};
ghost use Rattle.run_captures.specs.Fault as spec;

use pcap_read::CapFault;
use pcapng_read::NgFault;

/// Why a capture is refused, or ends before its octets do.
#[derive(Clone, Copy)]
pub enum CaptureFault {
    /// The fault of a capture in the classic format.
    Classic(CapFault),
    /// The fault of a capture in pcapng.
    Next(NgFault),
}

impl From<CapFault> for CaptureFault {
    ghost use Rattle.run_captures.specs.declared.fault.CaptureFault.TheVariants.{Classic};

    ghost from_gives = { λ fault source. source ≡ Classic fault };

    fn from(fault: CapFault) -> CaptureFault {
        CaptureFault::Classic(fault)
    }
}

impl From<NgFault> for CaptureFault {
    ghost use Rattle.run_captures.specs.declared.fault.CaptureFault.TheVariants.{Next};

    ghost from_gives = { λ fault source. source ≡ Next fault };

    fn from(fault: NgFault) -> CaptureFault {
        CaptureFault::Next(fault)
    }
}

impl CaptureFault {
    /// Whether the source failed.
    pub fn is_read_fault(&self) -> bool
        ensures { result ≡ spec.is_read_fault self.now }
    {
        match self {
            CaptureFault::Classic(fault) => matches!(fault, CapFault::ReadFault),
            CaptureFault::Next(fault) => matches!(fault, NgFault::ReadFault),
        }
    }

    /// The name of the fault, as its variant is called.
    pub fn name(&self) -> &'static str
        ensures { result.now ≡ spec.name_of self.now }
    {
        match self {
            CaptureFault::Classic(fault) => fault.name(),
            CaptureFault::Next(fault) => fault.name(),
        }
    }

    /// The offset of the fault, where it has one: an octet of the capture, counted from 0.
    pub fn offset(&self) -> Option<u64>
        ensures { result ≡ spec.offset_of self.now }
    {
        match self {
            CaptureFault::Classic(fault) => fault.offset(),
            CaptureFault::Next(fault) => fault.offset(),
        }
    }
}
