//! A spool in memory.
ghost use Rattle.std.specs.Prelude.{◌≡◌, ◌≤◌, length, None, Some, option_map, option_copied, IfOk};
ghost use Rattle.mud_world.specs.Calls.{counted, next_call};
ghost use Rattle.mud_world.specs.Causes.{Counts};
ghost use Rattle.mud_world.specs.Files.{content_of, has_failed, names_of, read_part};
ghost use Rattle.mud_world.specs.View.{spool_viewed};

use crate::calls::{is_to_fail, raise};
use crate::fault::SpoolFault;
use crate::spool::{MOST_READ, Spool};
use mud_base::{Bytes, Listed, Memory};
use std::alloc::Global;

/// How often each call of a spool was made. A number that has reached the last u64 stays there.
#[derive(Clone, Copy)]
pub struct SpoolCalls {
    pub list: u64,
    pub read: u64,
}

/// A spool in memory. A call fails exactly where its number is in the list of its method, counted
/// from 1, and `read` also where there is no file of the name.
#[derive(Drop)]
pub struct MemorySpool {
    /// Names and contents. Of two files with one name the first counts.
    pub files: Listed<(Bytes, Bytes)>,
    /// The numbers of the calls of `list` that are to fail.
    pub failing_list: Listed<u64>,
    /// The numbers of the calls of `read` that are to fail.
    pub failing_read: Listed<u64>,
    /// How often a call has failed.
    pub count: u64,
    /// How often each call was made.
    pub calls: SpoolCalls,
    failed: bool,
}

impl MemorySpool {
    ghost use Rattle.mud_world.specs.MemorySpool.{IsNew};

    /// A spool of these files. No call is to fail.
    pub fn new(alloc: Global, files: Listed<(Bytes, Bytes)>) -> MemorySpool
        ensures { IsNew files result }
    {
        MemorySpool {
            files,
            failing_list: Listed::new(alloc),
            failing_read: Listed::new(alloc),
            count: 0,
            calls: SpoolCalls { list: 0, read: 0 },
            failed: false,
        }
    }
}

impl Spool for MemorySpool {
    ghost use Rattle.mud_world.specs.MemorySpool.{SameScript, list_fails, read_fails};

    ghost tells = { Unit {0} };

    ghost view = { λ spool. spool_viewed spool.files spool.count spool.failed };

    fn list(&mut self, alloc: Global) -> Result<Listed<Bytes>, SpoolFault>
        ensures names { IfOk result (λ names. names ≡ names_of self.old.files) }
        ensures same { self.new.files ≡ self.old.files }
        ensures fails { has_failed result ≡ list_fails self.old }
        ensures count { self.new.count ≡ counted (has_failed result) self.old.count }
        ensures last { self.new.failed ≡ has_failed result }
        ensures calls { self.new.calls ≡ record self.old.calls { list = next_call self.old.calls.list } }
        ensures script { SameScript self.old self.new }
        ensures cause { Counts (has_failed result) self.old.count self.new.count }
    {
        if is_to_fail(&self.failing_list, &mut self.calls.list) {
            raise(&mut self.count);
            self.failed = true;
            return Err(SpoolFault::Failed);
        }
        self.failed = false;
        Ok(names(alloc, self.files.as_slice())?)
    }

    fn read(&mut self, alloc: Global, name: &[u8]) -> Result<Bytes, SpoolFault>
        ensures octets { IfOk result (λ octets.
            option_map read_part (content_of self.old.files name.now) ≡ Some octets) }
        ensures within { IfOk result (λ octets. length octets ≤ 262145) }
        ensures absent { content_of self.old.files name.now ≡ None → result ≡ Err SpoolFault.Failed }
        ensures same { self.new.files ≡ self.old.files }
        ensures fails { has_failed result ≡ read_fails self.old name.now }
        ensures count { self.new.count ≡ counted (has_failed result) self.old.count }
        ensures last { self.new.failed ≡ has_failed result }
        ensures calls { self.new.calls ≡ record self.old.calls { read = next_call self.old.calls.read } }
        ensures script { SameScript self.old self.new }
        ensures cause { Counts (has_failed result) self.old.count self.new.count }
    {
        self.failed = false;
        let listed = is_to_fail(&self.failing_read, &mut self.calls.read);
        match content(self.files.as_slice(), name) {
            Some(octets) if !listed => Ok(first_part(alloc, octets)?),
            _ => {
                raise(&mut self.count);
                self.failed = true;
                Err(SpoolFault::Failed)
            }
        }
    }
}

/// The names of files, in order.
fn names(alloc: Global, files: &[(Bytes, Bytes)]) -> Result<Listed<Bytes>, Memory>
    ensures { IfOk result (λ names. names ≡ names_of files.now) }
{
    let mut names = Listed::new(alloc);
    for file in files {
        names.push(file.0.copy()?)?;
    }
    Ok(names)
}

/// The content of the first file of a name.
fn content<'a>(files: &'a [(Bytes, Bytes)], name: &[u8]) -> Option<&'a [u8]>
    ensures { option_copied result ≡ content_of files.now name.now }
{
    for file in files {
        if file.0.octets() == name {
            return Some(file.1.octets());
        }
    }
    None
}

/// The part of a content that a read gives.
fn first_part(alloc: Global, content: &[u8]) -> Result<Bytes, Memory>
    ensures octets { IfOk result (λ octets. octets ≡ read_part content.now) }
    ensures within { IfOk result (λ octets. length octets ≤ 262145) }
{
    let most = MOST_READ.min(content.len());
    Bytes::new(alloc, &content[..most])
}
