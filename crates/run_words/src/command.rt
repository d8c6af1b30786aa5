//! The commands of the program.
use mud_base::Mac;

/// What `hear` reads.
#[derive(Clone, Copy)]
pub enum Message {
    /// One DHCPv4 message.
    Dhcp,
    /// One LLDP frame.
    Lldp,
}

/// What `report` prints of a store.
#[derive(Clone, Copy)]
pub enum ReportKind {
    /// The Things, each with its leases.
    Things,
    /// The usage files that are held.
    Files,
    /// The classes and their addresses.
    Classes,
    /// The local networks.
    Locals,
    /// The names and their addresses.
    Names,
    /// The URLs of which the file that was fetched later, approved or not, is past its hours.
    Due,
}

/// A command line that the program takes.
#[derive(Clone, Copy)]
pub enum Command {
    /// `hear dhcp` or `hear lldp`: reads one message and writes what it says.
    Hear(Message),
    /// `check`: reads one usage file and writes what it allows.
    Check,
    /// `frames`: reads a capture and writes what each packet is.
    Frames,
    /// `judge STORE`: reads a capture and writes the verdict on each packet, by what the store keeps.
    Judge,
    /// `snoop STORE`: reads a capture and writes the verdict on each packet, as `judge` does, and learns
    /// names from the answers of DNS servers in it.
    Snoop,
    /// `tally STORE`: reads a capture and writes how often each ruling was given, hour by hour, and
    /// what was denied, by what the store keeps.
    Tally,
    /// `import STORE FOLDER`: imports the usage files of a folder into the store, and writes a line
    /// for each.
    Import,
    /// `replay STORE`: answers the requests of a recorded session, at the moments that they carry.
    Replay,
    /// `serve STORE PORT COUNT`: answers so many connections on a port of this machine, at the moments
    /// of the clock.
    Serve {
        /// The port, from 1 on.
        port: u16,
        /// How many connections are served, from 1 to 1,000,000.
        count: u32,
    },
    /// `report STORE KIND`: writes a table of what the store keeps.
    Report(ReportKind),
    /// `export STORE MAC`: writes what the Thing of this hardware address may do now, as access lists with
    /// addresses alone.
    Export(Mac),
    /// `drill N`: runs a made network with so many packets, from 1 to 100,000, and writes its counts.
    Drill(u32),
}
