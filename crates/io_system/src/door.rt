//! The real door. What a pipe, a terminal or a client gives and takes is outside what is proved, so
//! it tells nothing of content. Its counts and bounds are proved, and what it does with the reader,
//! the writer and the client that it is made of.
ghost use Rattle.std.specs.Prelude.{◌≡◌, ◌≢◌, ◌<◌, ◌≤◌, ◌-◌, ◌++◌, false, true, [], drop, length, take, IfErr, IfOk, OnOk, OnErr, Ok, None, Some, is_some, is_err};
ghost use Rattle.std.specs.Io.KnownBytes.{ReadConsumes, WriteAppends};
ghost use Rattle.mud_world.specs.Calls.{counted as count_after};
ghost use Rattle.mud_world.specs.Causes.{Counts};
ghost use Rattle.mud_world.specs.View.{viewed};
ghost use Rattle.io_system.specs.Failures.{Notes};
ghost use Rattle.io_system.specs.Real.{left_of, port_of, reads_of, stands_of, turns_of, writes_of, written_of};

use crate::failure::{Call, Failure};
use crate::port::Port;
use arrayvec::ArrayVec;
use mud_world::{Door, Failed};
use std::io::{self, ErrorKind, Read, Write};
use std::net::Net;
use std::rt::Clock;

/// Where a door has its connection.
#[derive(Drop)]
pub enum Place<N: Net> {
    /// It stands at the reader and the writer, and wasn't bound.
    Standard,
    /// It has left them. There is no connection behind them.
    Left,
    /// It was bound, and its connections are those of the clients of this port.
    Bound(Port<N>),
}

/// A door over standard input and output, or over any reader and writer, until it is bound: one
/// connection, at which it stands from the start. Once it is bound it is over the connections of the
/// clients of a port of this machine. It keeps which call failed last, and why, the first octets that
/// it read, and the last ones of the last write.
#[derive(Drop)]
pub struct RealDoor<I: Read + Drop, O: Write + Drop, N: Net + Clock + Drop> {
    pub input: I,
    pub output: O,
    net: N,
    place: Place<N>,
    turns: u64,
    reads: u64,
    writes: u64,
    failed: bool,
    /// The call that failed last, if one did.
    pub failure: Option<Failure>,
    /// The first octets that were read.
    pub first: ArrayVec<u8, FIRST_KEPT>,
    /// The last octets of the last write.
    pub last: ArrayVec<u8, LAST_KEPT>,
}

/// How many of the first octets that were read are kept: as many as the header of a capture has.
pub const FIRST_KEPT: usize = 24;

/// How many of the last octets of a write are kept: as many as the line of a capture's fault may have.
pub const LAST_KEPT: usize = 40;

/// Keeps more of the first octets, while there is room.
fn keep_first(first: &mut ArrayVec<u8, FIRST_KEPT>, octets: &[u8])
    ensures { first.new.items ≡ take 24 (first.old.items ++ octets.now) }
{
    let count = first.remaining_capacity().min(octets.len());
    let (piece, _) = octets.split_at(count);
    let _kept = first.try_extend_from_slice(piece);
}

/// Keeps the last of these octets.
fn keep_last(last: &mut ArrayVec<u8, LAST_KEPT>, octets: &[u8])
    ensures { last.new.items ≡ drop (length octets.now - 40) octets.now }
{
    last.clear();
    let _kept = last.try_extend_from_slice(&octets[octets.len().saturating_sub(LAST_KEPT)..]);
}

impl<I: Read + Drop, O: Write + Drop, N: Net + Clock + Drop> RealDoor<I, O, N> {
    /// A door that reads of the one and writes to the other, and takes its clients by this network
    /// once it is bound; the time of a client goes by the clock of the same. No call has failed yet.
    pub fn new(input: I, output: O, net: N) -> RealDoor<I, O, N>
        ensures input { result.input ≡ input }
        ensures output { result.output ≡ output }
        ensures port { port_of result ≡ None }
        ensures stands { (⟦<RealDoor<I, O, N> as Door>⟧.view result).state.stands ≡ true }
        ensures turns { (⟦<RealDoor<I, O, N> as Door>⟧.view result).turns ≡ 0 }
        ensures reads { (⟦<RealDoor<I, O, N> as Door>⟧.view result).reads ≡ 0 }
        ensures writes { (⟦<RealDoor<I, O, N> as Door>⟧.view result).writes ≡ 0 }
        ensures failed { (⟦<RealDoor<I, O, N> as Door>⟧.view result).failed ≡ false }
        ensures failure { result.failure ≡ None }
        ensures first { result.first.items ≡ [] }
    {
        RealDoor {
            input,
            output,
            net,
            place: Place::Standard,
            turns: 0,
            reads: 0,
            writes: 0,
            failed: false,
            failure: None,
            first: ArrayVec::new(),
            last: ArrayVec::new(),
        }
    }
}

/// The answer of a call of a door, counted where the call failed, and noted as the last one.
fn counted<T>(
    answer: io::Result<T>,
    call: Call,
    failures: &mut u64,
    failed: &mut bool,
    failure: &mut Option<Failure>,
) -> Result<T, Failed>
    ensures ok { IfOk answer (λ value. result ≡ Ok value) }
    ensures err { OnErr answer (is_err result ≡ true) }
    ensures cause { Counts (is_err result) failures.old failures.new }
    ensures count { failures.new ≡ count_after (is_err result) failures.old }
    ensures last { failed.new ≡ is_err result }
    ensures noted { Notes (is_err result) call failure.old failure.new }
    ensures error { IfErr answer (λ error. failure.new ≡ Some (record { call = call; error = error })) }
{
    *failed = answer.is_err();
    match answer {
        Ok(value) => Ok(value),
        Err(error) => {
            *failures = failures.saturating_add(1);
            *failure = Some(Failure { call, error });
            Err(Failed)
        }
    }
}

/// The answer of a write of some octets. One that took none has failed.
fn taken(answer: io::Result<usize>) -> io::Result<usize>
    ensures ok { IfOk result (λ n. (answer ≡ Ok n) × (0 < n)) }
    ensures err { IfErr result (λ _. IfOk answer (λ n. n ≡ 0)) }
{
    match answer {
        Ok(0) => Err(ErrorKind::WriteZero.into()),
        answer => answer,
    }
}

impl<I: Read + Drop, O: Write + Drop, N: Net + Clock + Drop> Door for RealDoor<I, O, N> {
    ghost tells = { ⊥ };

    ghost view = { λ door. viewed (record { bound = port_of door; stands = stands_of door; past = []; left = []; written = []; ahead = [] }) door.turns door.reads door.writes door.failed };

    /// It listens on the port of 127.0.0.1 alone, so clients on this machine alone can come.
    fn bind(&mut self, port: u16) -> Result<(), Failed>
        ensures ok { OnOk result ((port_of self.new ≡ Some port) × (stands_of self.new ≡ false)) }
        ensures err { OnErr result (self.new.place ≡ self.old.place) }
        ensures input { self.new.input ≡ self.old.input }
        ensures output { self.new.output ≡ self.old.output }
        ensures cause { Counts (is_err result) (turns_of self.old) (turns_of self.new) }
        ensures count { turns_of self.new ≡ count_after (is_err result) (turns_of self.old) }
        ensures last { self.new.failed ≡ is_err result }
        ensures noted { Notes (is_err result) (Call.Bind port) self.old.failure self.new.failure }
        ensures reads { reads_of self.new ≡ reads_of self.old }
        ensures writes { writes_of self.new ≡ writes_of self.old }
    {
        let port = counted(
            Port::listen(&self.net, port),
            Call::Bind(port),
            &mut self.turns,
            &mut self.failed,
            &mut self.failure,
        )?;
        self.place = Place::Bound(port);
        Ok(())
    }

    /// Where it was bound, it waits for a further client: there always is one, unless the call
    /// fails. Else there is no connection behind the one.
    fn next(&mut self) -> Result<bool, Failed>
        ensures more { IfOk result (λ more. (more ≡ is_some (port_of self.old)) × (stands_of self.new ≡ more)) }
        ensures err { OnErr result (stands_of self.new ≡ false) }
        ensures unbound { port_of self.old ≡ None → result ≡ Ok false }
        ensures port { port_of self.new ≡ port_of self.old }
        ensures input { self.new.input ≡ self.old.input }
        ensures output { self.new.output ≡ self.old.output }
        ensures cause { Counts (is_err result) (turns_of self.old) (turns_of self.new) }
        ensures count { turns_of self.new ≡ count_after (is_err result) (turns_of self.old) }
        ensures last { self.new.failed ≡ is_err result }
        ensures noted { Notes (is_err result) Call.Next self.old.failure self.new.failure }
        ensures reads { reads_of self.new ≡ reads_of self.old }
        ensures writes { writes_of self.new ≡ writes_of self.old }
    {
        match &mut self.place {
            Place::Bound(port) => {
                counted(
                    port.go_on(),
                    Call::Next,
                    &mut self.turns,
                    &mut self.failed,
                    &mut self.failure,
                )?;
                Ok(true)
            }
            _ => {
                self.place = Place::Left;
                self.failed = false;
                Ok(false)
            }
        }
    }

    /// It reads once of where it stands. A read that was interrupted, or that waited too long for a
    /// client, has failed.
    fn read(&mut self, buf: &mut [u8]) -> Result<usize, Failed>
        ensures within { IfOk result (λ n. n ≤ length buf.new) }
        ensures octets { ReadConsumes (left_of I.remaining N.Stream.remaining self.old) (left_of I.remaining N.Stream.remaining self.new) result buf.new }
        ensures nowhere { stands_of self.old ≡ false → result ≡ Ok 0 }
        ensures elsewhere { is_some (port_of self.old) ≡ true → self.new.input ≡ self.old.input }
        ensures output { self.new.output ≡ self.old.output }
        ensures stands { stands_of self.new ≡ stands_of self.old }
        ensures port { port_of self.new ≡ port_of self.old }
        ensures cause { Counts (is_err result) (reads_of self.old) (reads_of self.new) }
        ensures count { reads_of self.new ≡ count_after (is_err result) (reads_of self.old) }
        ensures last { self.new.failed ≡ is_err result }
        ensures noted { Notes (is_err result) Call.Read self.old.failure self.new.failure }
        ensures turns { turns_of self.new ≡ turns_of self.old }
        ensures writes { writes_of self.new ≡ writes_of self.old }
        ensures first { IfOk result (λ n. self.new.first.items ≡ take 24 (self.old.first.items ++ take n buf.new)) }
    {
        let answer = match &mut self.place {
            Place::Standard => self.input.read(buf),
            Place::Left => Ok(0),
            Place::Bound(port) => port.read(&self.net, buf),
        };
        let count = counted(
            answer,
            Call::Read,
            &mut self.reads,
            &mut self.failed,
            &mut self.failure,
        )?;
        keep_first(&mut self.first, &buf[..count]);
        Ok(count)
    }

    /// It writes once to where it stands. A writer or a client that takes nothing has failed, and so
    /// has a write that waited too long.
    fn write(&mut self, piece: &[u8]) -> Result<usize, Failed>
        ensures within { IfOk result (λ n. n ≤ length piece.now) }
        ensures some { IfOk result (λ n. 0 < length piece.now → 0 < n) }
        ensures octets { WriteAppends (written_of O.contents N.Stream.contents self.old) (written_of O.contents N.Stream.contents self.new) result piece.now }
        ensures nowhere { stands_of self.old ≡ false → OnOk result (piece.now ≡ []) }
        ensures elsewhere { is_some (port_of self.old) ≡ true → self.new.output ≡ self.old.output }
        ensures input { self.new.input ≡ self.old.input }
        ensures stands { stands_of self.new ≡ stands_of self.old }
        ensures port { port_of self.new ≡ port_of self.old }
        ensures cause { Counts (is_err result) (writes_of self.old) (writes_of self.new) }
        ensures count { writes_of self.new ≡ count_after (is_err result) (writes_of self.old) }
        ensures last { self.new.failed ≡ is_err result }
        ensures noted { Notes (is_err result) Call.Write self.old.failure self.new.failure }
        ensures turns { turns_of self.new ≡ turns_of self.old }
        ensures reads { reads_of self.new ≡ reads_of self.old }
        ensures line { IfOk result (λ n. 0 < n → self.new.last.items ≡ drop (n - 40) (take n piece.now)) }
    {
        self.failed = false;
        if piece.is_empty() {
            return Ok(0);
        }
        let answer = match &mut self.place {
            Place::Standard => self.output.write(piece),
            Place::Left => Ok(0),
            Place::Bound(port) => port.write(piece),
        };
        let count = counted(
            taken(answer),
            Call::Write,
            &mut self.writes,
            &mut self.failed,
            &mut self.failure,
        )?;
        keep_last(&mut self.last, &piece[..count]);
        Ok(count)
    }
}
