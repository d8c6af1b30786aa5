//! A port of this machine on which clients are awaited, and the client that is served.
ghost use Rattle.std.specs.Prelude.{◌≡◌, true, false, None, Some, Ok, IfOk, IfSome, OnOk, OnErr, is_some};
ghost use Rattle.std.specs.Net.Socket.{socket_ip, socket_port};
ghost use Rattle.std.specs.Io.{ReadsAtMost, WritesAtMost};
ghost use Rattle.std.specs.Io.KnownBytes.{ReadConsumes, WriteAppends};
ghost use Rattle.io_system.specs.Ports.{client_octets, is_served, localhost, octets_of, since_of};

use crate::client::{Client, LONGEST_WAIT};
use std::io;
use std::net::{IpAddr, Ipv4Addr, Net, OpenListener, OpenStream, SocketAddr};
use std::rt::Clock;
use std::time::{Duration, Instant};

/// A port of 127.0.0.1, so one that clients on this machine alone can reach.
#[derive(Drop)]
pub struct Port<N: Net> {
    /// The number of the port.
    pub number: u16,
    pub listener: N::Listener,
    /// The client whose connection was taken last, unless it was left.
    pub client: Option<Client<N::Stream>>,
}

/// The address of a port that clients on this machine alone can reach.
fn address_of(number: u16) -> SocketAddr
    ensures ip { octets_of (socket_ip result) ≡ localhost }
    ensures port { socket_port result ≡ number }
{
    SocketAddr::new(IpAddr::V4(Ipv4Addr::LOCALHOST), number)
}

impl<N: Net> Port<N> {
    /// Listens on the port of this number. No client is served yet.
    pub(crate) fn listen(net: &N, number: u16) -> io::Result<Port<N>>
        ensures number { IfOk result (λ port. port.number ≡ number) }
        ensures client { IfOk result (λ port. is_served port ≡ false) }
    {
        let listener = net.bind(address_of(number))?;
        Ok(Port {
            number,
            listener,
            client: None,
        })
    }

    /// Waits for a further client, and gives it its time limits. What is written to it is sent at once:
    /// an answer is written in two pieces, and the second one isn't to wait until the client has
    /// acknowledged the first.
    fn accept(&self) -> io::Result<Client<N::Stream>>
        ensures { IfOk result (λ client. client.since ≡ None) }
    {
        let (stream, _) = self.listener.accept()?;
        let limit = Some(Duration::from_secs(LONGEST_WAIT));
        stream.set_read_timeout(limit)?;
        stream.set_write_timeout(limit)?;
        stream.set_nodelay(true)?;
        Ok(Client {
            stream,
            since: None,
        })
    }

    /// Leaves the client, whose connection is closed, and waits for a further one.
    pub(crate) fn go_on(&mut self) -> io::Result<()>
        ensures ok { OnOk result (is_served self.new ≡ true) }
        ensures err { OnErr result (is_served self.new ≡ false) }
        ensures fresh { since_of self.new ≡ None }
        ensures number { self.new.number ≡ self.old.number }
    {
        self.client = None;
        self.client = Some(self.accept()?);
        Ok(())
    }

    /// Reads once of the client, whose time goes by this clock: it begins with the first read, and runs
    /// on where it had begun. Where no client is served, it answers 0.
    pub fn read<C: Clock>(&mut self, clock: &C, buf: &mut [u8]) -> io::Result<usize>
        ensures within { ReadsAtMost result buf.new }
        ensures octets { ReadConsumes (client_octets N.Stream.remaining self.old.client) (client_octets N.Stream.remaining self.new.client) result buf.new }
        ensures nowhere { is_served self.old ≡ false → result ≡ Ok 0 }
        ensures since { IfSome (since_of self.old) (λ since. since_of self.new ≡ Some since) }
        ensures begun { OnOk result (is_some (since_of self.new) ≡ is_served self.old) }
        ensures served { is_served self.new ≡ is_served self.old }
        ensures number { self.new.number ≡ self.old.number }
    {
        match &mut self.client {
            Some(client) => client.read(Instant::now(clock)?, buf),
            None => Ok(0),
        }
    }

    /// Writes once to the client. Where octets were taken, its time begins with the next read. Where no
    /// client is served, it answers 0.
    pub fn write(&mut self, piece: &[u8]) -> io::Result<usize>
        ensures within { WritesAtMost result piece.now }
        ensures octets { WriteAppends (client_octets N.Stream.contents self.old.client) (client_octets N.Stream.contents self.new.client) result piece.now }
        ensures nowhere { is_served self.old ≡ false → result ≡ Ok 0 }
        ensures since { OnOk result (since_of self.new ≡ None) }
        ensures kept { OnErr result (since_of self.new ≡ since_of self.old) }
        ensures served { is_served self.new ≡ is_served self.old }
        ensures number { self.new.number ≡ self.old.number }
    {
        match &mut self.client {
            Some(client) => client.write(piece),
            None => Ok(0),
        }
    }
}
