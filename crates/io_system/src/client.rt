//! A client of a port.
ghost use Rattle.std.specs.Prelude.{◌≡◌, ◌≤◌, ◌/◌, ◌-◌, Some, None, true, IfSome, OnOk, OnErr, is_err};
ghost use Rattle.std.specs.Option.{unwrap_or};
ghost use Rattle.std.specs.Time.{instant_nanos};
ghost use Rattle.std.specs.Io.{ReadsAtMost, WritesAtMost};
ghost use Rattle.std.specs.Io.KnownBytes.{ReadConsumes, WriteAppends};

use std::io::{self, ErrorKind, Read, Write};
use std::net::{OpenStream, Shutdown};
use std::time::{Duration, Instant};

/// How many seconds a read or a write waits for a client that sends or takes nothing, and how many
/// a client has from the first read of a request on until the last one of it begins. Then it has
/// failed.
pub const LONGEST_WAIT: u64 = 60;

/// How many seconds a read waits for what a client that was left still sends.
const LONGEST_LEAVE: u64 = 1;

/// The most reads of a client that was left. With [`LONGEST_LEAVE`] they take a minute at most.
const MOST_READS: u32 = 60;

/// The connection of a client. Once it is let go, the client can still read what was written to it.
pub struct Client<S: Read + OpenStream + Drop> {
    pub stream: S,
    /// The moment of the first read since the client came or was last written to, if there was one.
    pub since: Option<Instant>,
}

impl<S: Read + Write + OpenStream + Drop> Client<S> {
    /// Reads once, at this moment of the clock. Where the client has been read for [`LONGEST_WAIT`]
    /// seconds without an answer, its request has taken too long: nothing is read of it, and the
    /// read has failed.
    pub fn read(&mut self, now: Instant, buf: &mut [u8]) -> io::Result<usize>
        ensures within { ReadsAtMost result buf.new }
        ensures octets { ReadConsumes (S.remaining self.old.stream) (S.remaining self.new.stream) result buf.new }
        ensures late { IfSome self.old.since (λ since.
            60 ≤ (instant_nanos now - instant_nanos since) / 1000000000
            → (is_err result ≡ true) × (self.new.stream ≡ self.old.stream)) }
        ensures since { self.new.since ≡ Some (unwrap_or self.old.since now) }
    {
        let since = self.since.unwrap_or(now);
        self.since = Some(since);
        if LONGEST_WAIT <= now.duration_since(since).as_secs() {
            return Err(ErrorKind::TimedOut.into());
        }
        self.stream.read(buf)
    }

    /// Writes once. Where octets were taken, the client's time for its next request begins with the
    /// next read.
    pub fn write(&mut self, piece: &[u8]) -> io::Result<usize>
        ensures within { WritesAtMost result piece.now }
        ensures octets { WriteAppends (S.contents self.old.stream) (S.contents self.new.stream) result piece.now }
        ensures since { OnOk result (self.new.since ≡ None) }
        ensures kept { OnErr result (self.new.since ≡ self.old.since) }
    {
        let count = self.stream.write(piece)?;
        self.since = None;
        Ok(count)
    }
}

/// Says that no more octets come, and reads what the client still sends until it closes too. A
/// connection that is closed with octets unread is reset, and then the client may lose what it
/// hasn't read yet (RFC 9112, section 9.6).
fn leave<S: Read + OpenStream>(stream: &mut S) {
    let limit = Some(Duration::from_secs(LONGEST_LEAVE));
    if stream.shutdown(Shutdown::Write).is_err() || stream.set_read_timeout(limit).is_err() {
        return;
    }
    let mut octets = [0; 16_384];
    for _ in 0..MOST_READS {
        match stream.read(&mut octets) {
            Ok(0) | Err(_) => return,
            Ok(_) => {}
        }
    }
}

impl<S: Read + OpenStream + Drop> Drop for Client<S> {
    fn drop(self) {
        let Client {
            mut stream,
            since: _,
        } = self;
        leave(&mut stream);
    }
}
