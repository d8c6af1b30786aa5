//! The real spool: the files of one folder. What a folder holds is outside what is proved, so it
//! tells nothing of its files. Its counts and bounds are proved, and what it makes of the octets that
//! a file gives.
ghost use Rattle.std.specs.Prelude.{◌≡◌, ◌≤◌, ◌<◌, ◌++◌, ◌∷◌, ◌⊎◌, [], codes, length, take, false, string_bytes, Err, None, Ok, Some, IfErr, IfOk, IfSome, OnOk, is_err, is_some, true};
ghost use Rattle.std.specs.Iterator.{Drains, IsFinite};
ghost use Rattle.std.specs.Io.KnownBytes.{Consumes, IsAtEnd};
ghost use Rattle.mud_world.specs.Calls.{counted as count_after};
ghost use Rattle.mud_world.specs.Causes.{Counts};
ghost use Rattle.mud_world.specs.Files.{has_failed};
ghost use Rattle.io_system.specs.Real.{faults_of};
ghost use Rattle.io_system.specs.Errors.{fault_of, name_trouble_of, trouble_of};
ghost use Rattle.io_system.specs.Failures.{Notes};
ghost use Rattle.io_system.specs.Folders.{names_of, ArePassed, HasTrouble, StopsAt};
ghost use Rattle.mud_world.specs.View.{spool_viewed};

use crate::failure::{Call, Failure};
use mud_base::{Bytes, Listed, Memory};
use mud_world::{MOST_READ, Spool, SpoolFault};
use std::alloc::Global;
use std::fs::{self, DirEntry};
use std::io::{self, ErrorKind, Read};
use std::rt::Files;

/// A folder of files. A file whose name isn't UTF-8 isn't listed. It keeps which call failed last,
/// and why.
#[derive(Drop)]
pub struct RealSpool<R: Files + AllocGlobal + Clone + Drop> {
    runtime: R,
    folder: String,
    faults: u64,
    failed: bool,
    /// The call that failed last, if one did.
    pub failure: Option<Failure>,
    /// The path of the file that was read last, where its name is UTF-8.
    pub file: Option<String>,
}

impl<R: Files + AllocGlobal + Clone + Drop> RealSpool<R> {
    /// The spool of the folder of this path, by the files of this runtime. It opens nothing, and no
    /// call has failed yet.
    pub fn new(runtime: R, folder: String) -> RealSpool<R>
        ensures runtime { result.runtime ≡ runtime }
        ensures folder { result.folder ≡ folder }
        ensures faults { faults_of result ≡ 0 }
        ensures failed { (⟦<RealSpool<R> as Spool>⟧.view result).failed ≡ false }
        ensures failure { result.failure ≡ None }
    {
        RealSpool {
            runtime,
            folder,
            faults: 0,
            failed: false,
            failure: None,
            file: None,
        }
    }

    /// The path of the folder.
    pub fn folder(&self) -> &str
        ensures { result.now ≡ string_bytes self.now.folder }
    {
        self.folder.as_str()
    }
}

/// Why a call didn't succeed.
#[derive(Clone, Copy)]
pub enum Trouble {
    /// Memory was wanted and there was none.
    Memory,
    /// An error of the system.
    System(io::Error),
}

impl From<Memory> for Trouble {
    ghost use Rattle.io_system.specs.declared.spool.Trouble.TheVariants.{Memory};

    ghost from_gives = { λ _ trouble. trouble ≡ Memory };

    fn from(_memory: Memory) -> Trouble {
        Trouble::Memory
    }
}

/// What an error of the system says.
fn trouble_of(error: io::Error) -> Trouble
    ensures { result ≡ trouble_of error }
{
    match error.kind() {
        ErrorKind::OutOfMemory => Trouble::Memory,
        _ => Trouble::System(error),
    }
}

/// What becomes of an entry that can't be read: None where its name isn't UTF-8, else what its error
/// says.
fn name_trouble(error: io::Error) -> Option<Trouble>
    ensures { result ≡ name_trouble_of error }
{
    match error.kind() {
        ErrorKind::InvalidFilename => None,
        _ => Some(trouble_of(error)),
    }
}

/// Adds the name of an entry to those of the folder. An entry whose name isn't UTF-8 has none.
fn add_name<R: Files + Drop>(
    entry: io::Result<DirEntry<R>>,
    names: &mut Listed<Bytes>,
    alloc: Global,
) -> Result<(), Trouble>
    ensures names { OnOk result (names.new ≡ names.old ++ names_of (entry ∷ [])) }
    ensures passed { OnOk result (ArePassed (entry ∷ [])) }
    ensures stopped { IfErr result (λ trouble. (trouble ≡ Trouble.Memory) ⊎ HasTrouble entry trouble) }
{
    match entry {
        Ok(entry) => {
            names.push(Bytes::new(alloc, entry.file_name().as_bytes())?)?;
            Ok(())
        }
        Err(error) => match name_trouble(error) {
            Some(trouble) => Err(trouble),
            None => Ok(()),
        },
    }
}

/// The names of these entries, in their order. An entry whose name isn't UTF-8 has none, and the
/// first other one that can't be read ends it.
fn names_of<R: Files + Drop, I: Iterator<Item = io::Result<DirEntry<R>>> + Drop>(
    entries: I,
    alloc: Global,
) -> Result<Listed<Bytes>, Trouble>
    requires can { I.can_next entries }
    requires ends { IsFinite (I.remaining entries) }
    ensures names { IfOk result (λ names. ((taken : _) × Drains I.next_gives entries taken
        × ArePassed taken × (names ≡ names_of taken))) }
    ensures stopped { IfErr result (λ trouble. (trouble ≡ Trouble.Memory) ⊎ StopsAt I.next_gives entries trouble) }
{
    let mut names = Listed::new(alloc);
    'entries: for entry in entries {
        add_name(entry, &mut names, alloc)?;
    }
    Ok(names)
}

/// The names of the files of a folder, as the system gives them.
fn names_in<R: Files + AllocGlobal + Clone + Drop>(
    runtime: &R,
    folder: &str,
    alloc: Global,
) -> Result<Listed<Bytes>, Trouble> {
    match fs::read_dir(runtime, folder) {
        Ok(entries) => names_of(entries, alloc),
        Err(error) => Err(trouble_of(error)),
    }
}

/// Reads a piece of a file behind the text, of at most so many octets. The answer is how many came,
/// 0 at the end of the file.
fn read_on<F: Read>(file: &mut F, buffer: &mut [u8], text: &mut Bytes) -> Result<usize, Trouble>
    ensures within { IfOk result (λ n. n ≤ length buffer.new) }
    ensures octets { IfOk result (λ n. Consumes (F.remaining file.old) (F.remaining file.new) (take n buffer.new)) }
    ensures end { IfOk result (λ n. n ≡ 0 → 0 < length buffer.new → IsAtEnd (F.remaining file.new)) }
    ensures text { IfOk result (λ n. text.new ≡ text.old ++ take n buffer.new) }
{
    match file.read(buffer) {
        Ok(count) => {
            text.append(&buffer[..count])?;
            Ok(count)
        }
        Err(error) => Err(trouble_of(error)),
    }
}

/// How many octets are read at once.
const BUFFER: usize = 4096;

/// The first octets of a file, up to [`MOST_READ`], or all of them where it has fewer.
fn first_octets<F: Read>(file: &mut F, alloc: Global) -> Result<Bytes, Trouble>
    ensures within { IfOk result (λ octets. length octets ≤ 262145) }
    ensures octets { IfOk result (λ octets. IfSome (F.remaining file.old) (λ content. octets ≡ take 262145 content)) }
{
    let mut text = Bytes::empty(alloc);
    let mut buffer = [0; BUFFER];
    'more: while text.len() < MOST_READ {
        let room = (MOST_READ - text.len()).min(BUFFER);
        if read_on(file, &mut buffer[..room], &mut text)? == 0 {
            return Ok(text);
        }
    }
    Ok(text)
}

/// The first octets of a file that was opened, or what the error says where it couldn't be.
fn octets_in<F: Read + Drop>(opened: io::Result<F>, alloc: Global) -> Result<Bytes, Trouble>
    ensures within { IfOk result (λ octets. length octets ≤ 262145) }
    ensures octets { IfOk opened (λ file. IfOk result (λ octets. IfSome (F.remaining file) (λ content. octets ≡ take 262145 content))) }
    ensures failed { IfErr opened (λ error. result ≡ Err (trouble_of error)) }
{
    match opened {
        Ok(mut file) => first_octets(&mut file, alloc),
        Err(error) => Err(trouble_of(error)),
    }
}

/// The path of a file of the folder.
fn path_of(folder: &str, name: &str, alloc: Global) -> Result<String, Trouble>
    ensures { IfOk result (λ path. string_bytes path ≡ folder.now ++ codes "/" ++ name.now) }
{
    match format!(in alloc; "{folder}/{name}") {
        Ok(path) => Ok(path),
        Err(_) => Err(Trouble::Memory),
    }
}

/// The first octets of the file of that name in a folder, whose path is kept.
fn octets_of<R: Files>(
    runtime: &R,
    folder: &str,
    alloc: Global,
    name: &[u8],
    file: &mut Option<String>,
) -> Result<Bytes, Trouble>
    ensures within { IfOk result (λ octets. length octets ≤ 262145) }
    ensures file { IfSome file.new (λ path. string_bytes path ≡ folder.now ++ codes "/" ++ name.now) }
    ensures named { OnOk result (is_some file.new ≡ true) }
{
    *file = None;
    let Ok(name) = str::from_utf8(name) else {
        return Err(Trouble::System(ErrorKind::InvalidFilename.into()));
    };
    let path = path_of(folder, name, alloc)?;
    let octets = octets_in(fs::open(runtime, path.as_str()), alloc);
    *file = Some(path);
    octets
}

/// The answer of a call of a spool, counted where the spool itself failed, and noted then as the last
/// one.
fn counted<T>(
    answer: Result<T, Trouble>,
    call: Call,
    faults: &mut u64,
    failed: &mut bool,
    failure: &mut Option<Failure>,
) -> Result<T, SpoolFault>
    ensures ok { IfOk answer (λ value. result ≡ Ok value) }
    ensures err { IfErr answer (λ trouble. result ≡ Err (fault_of trouble)) }
    ensures cause { Counts (has_failed result) faults.old faults.new }
    ensures count { faults.new ≡ count_after (has_failed result) faults.old }
    ensures last { failed.new ≡ has_failed result }
    ensures noted { Notes (has_failed result) call failure.old failure.new }
    ensures error { (error : _) → answer ≡ Err (Trouble.System error) → failure.new ≡ Some (record { call = call; error = error }) }
{
    *failed = matches!(answer, Err(Trouble::System(_)));
    match answer {
        Ok(value) => Ok(value),
        Err(Trouble::Memory) => Err(SpoolFault::Memory),
        Err(Trouble::System(error)) => {
            *faults = faults.saturating_add(1);
            *failure = Some(Failure { call, error });
            Err(SpoolFault::Failed)
        }
    }
}

impl<R: Files + AllocGlobal + Clone + Drop> Spool for RealSpool<R> {
    ghost tells = { ⊥ };

    ghost view = { λ spool. spool_viewed [] spool.faults spool.failed };

    fn list(&mut self, alloc: Global) -> Result<Listed<Bytes>, SpoolFault>
        ensures cause { Counts (has_failed result) (faults_of self.old) (faults_of self.new) }
        ensures count { faults_of self.new ≡ count_after (has_failed result) (faults_of self.old) }
        ensures last { self.new.failed ≡ has_failed result }
        ensures noted { Notes (has_failed result) Call.List self.old.failure self.new.failure }
    {
        let answer = names_in(&self.runtime, self.folder.as_str(), alloc);
        counted(
            answer,
            Call::List,
            &mut self.faults,
            &mut self.failed,
            &mut self.failure,
        )
    }

    /// A file that can't be opened or read counts as a failure too.
    fn read(&mut self, alloc: Global, name: &[u8]) -> Result<Bytes, SpoolFault>
        ensures within { IfOk result (λ octets. length octets ≤ 262145) }
        ensures cause { Counts (has_failed result) (faults_of self.old) (faults_of self.new) }
        ensures count { faults_of self.new ≡ count_after (has_failed result) (faults_of self.old) }
        ensures last { self.new.failed ≡ has_failed result }
        ensures noted { Notes (has_failed result) Call.ReadFile self.old.failure self.new.failure }
        // Where the path of a file is kept, it is that of this name.
        ensures file { IfSome self.new.file (λ path. string_bytes path ≡ string_bytes self.old.folder ++ codes "/" ++ name.now) }
        ensures folder { self.new.folder ≡ self.old.folder }
    {
        let answer = octets_of(
            &self.runtime,
            self.folder.as_str(),
            alloc,
            name,
            &mut self.file,
        );
        counted(
            answer,
            Call::ReadFile,
            &mut self.faults,
            &mut self.failed,
            &mut self.failure,
        )
    }
}
