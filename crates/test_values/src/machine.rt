//! What no clause says of the real ones: that a client is served, what a clock shows, and what is read of
//! the files of a folder.
use io_system::{RealClock, RealDoor, RealSpool};
use mud_base::Moment;
use mud_world::{Clock, Door, Failed, MOST_READ, Spool, SpoolFault};
use std::alloc::Global;
use std::fs;
use std::io::{Read, Write};
use std::net::{TcpListener, TcpStream};
use std::test::Fail;
use std::time::Duration;

/// A door whose reader and writer are in memory.
type RealDoorOver = RealDoor<&'static [u8], Vec<u8>, HostRuntime>;

/// The number of a port that nothing listens on.
fn free_port(rt: &HostRuntime) -> Result<u16, Fail> {
    let listener = TcpListener::bind(rt, "127.0.0.1:0")?;
    Ok(listener.local_addr()?.port())
}

/// Whether the door does what it is to do for a client, which sends an octet and takes one: nothing
/// before it goes on to it, and then both.
fn serves(door: &mut RealDoorOver, client: &mut TcpStream) -> Result<bool, Fail> {
    let mut octet = [0];
    let is_nowhere = matches!(door.read(&mut octet), Ok(0))
        && matches!(door.write(b"a"), Err(Failed));
    let has_come = matches!(door.next(), Ok(true));
    client.write_all(b"q")?;
    let is_read = matches!(door.read(&mut octet), Ok(1)) && octet == *b"q";
    let is_written = matches!(door.write(b"a"), Ok(1));
    client.read_exact(&mut octet)?;
    Ok(is_nowhere && has_come && is_read && is_written && octet == *b"a")
}

/// Whether the door can be bound to the port once, and then serves a client.
fn is_served(rt: &HostRuntime, door: &mut RealDoorOver, port: u16) -> Result<bool, Fail> {
    let is_bound = matches!(door.bind(port), Ok(())) && matches!(door.bind(port), Err(Failed));
    let mut client = TcpStream::connect(rt, ("127.0.0.1", port))?;
    let is_served = serves(door, &mut client);
    drop(client);
    let is_served = is_served?;
    Ok(is_bound && is_served)
}

#[test]
fn serves_a_client(rt: HostRuntime) -> Result<(), Fail> {
    let port = free_port(&rt)?;
    let mut door = RealDoor::new(b"in".as_slice(), Vec::new(rt.alloc()), rt);
    let is_served = is_served(&rt, &mut door, port);
    drop(door);
    let is_served = is_served?;
    assert!(rt; is_served);
    Ok(())
}

/// A machine's clock that shows one moment.
#[derive(Drop)]
struct Stopped(u64);

impl std::rt::Clock for Stopped {
    fn monotonic(&self) -> std::io::Result<Duration> {
        Ok(Duration::from_secs(self.0))
    }

    fn since_1970(&self) -> std::io::Result<Duration> {
        Ok(Duration::from_secs(self.0))
    }
}

/// The seconds of the moment that the clock shows where the machine's shows so many.
fn shown(seconds: u64) -> u64 {
    RealClock::new(&Stopped(seconds)).now().seconds()
}

#[test]
fn a_real_clock_shows_the_moment(rt: HostRuntime) {
    assert_eq!(rt; [shown(1059), shown(u64::MAX >> 2)], [1059, Moment::LAST]);
}

/// Makes a folder of two files. One has an octet more than is read of it, and the last one that is
/// read is marked.
fn make_folder(rt: &HostRuntime) -> Result<(), Fail> {
    fs::create_dir(rt, "folder")?;
    fs::write(rt, "folder/short", b" in".as_slice())?;
    let mut long = vec![in rt.alloc(); b' '; MOST_READ + 1]?;
    long[MOST_READ - 1] = b'!';
    fs::write(rt, "folder/long", long)?;
    Ok(())
}

/// Whether these are what is read of the longer file.
fn is_long(octets: &[u8]) -> bool {
    match octets {
        [rest @ .., b'!'] => octets.len() == MOST_READ && rest.iter().all(|octet| *octet == b' '),
        _ => false,
    }
}

/// Whether that is read of the folder.
fn reads_folder(alloc: Global, spool: &mut RealSpool<HostRuntime>) -> bool {
    matches!(spool.list(alloc), Ok(names) if names.len() == 2)
        && matches!(spool.read(alloc, b"long"), Ok(octets) if is_long(octets.octets()))
        && matches!(spool.read(alloc, b"short"), Ok(octets) if octets.octets() == b" in".as_slice())
        && matches!(spool.read(alloc, b"none"), Err(SpoolFault::Failed))
}

#[test]
fn files_of_a_folder_are_read_up_to_the_most(rt: HostRuntime) -> Result<(), Fail> {
    make_folder(&rt)?;
    let mut spool = RealSpool::new(rt, format!(in rt.alloc(); "folder")?);
    let are_read = reads_folder(rt.alloc(), &mut spool);
    drop(spool);
    assert!(rt; are_read);
    Ok(())
}
