//! A run over what its words name: the store is their second word, and the folder their third.
ghost use Rattle.std.specs.Prelude.{◌≡◌, ◌≢◌, ◌↔◌, None, IfOk, IfSome, OnErr, drop, option_map, string_bytes};
ghost use Rattle.std.specs.Process.{exit_status};
ghost use Rattle.run_common.specs.Status.{Is};
ghost use Rattle.run_common.specs.declared.status.Status.TheVariants.{Unlisted};
ghost use Rattle.run_words.specs.Words.{command_in, words_of};
ghost use Rattle.mud_cli.specs.Runs.{world};
ghost use Rattle.keep_sqlite.specs.FromFile.{BeginsWithFile};
ghost use Rattle.sqlite.specs.WalFiles.{image_at};
ghost use Rattle.mud.specs.declared.store.StoreKeeper.TheVariants as store;
ghost use Rattle.mud.specs.NamedRuns.{folder_in, path_in};
ghost use Rattle.mud.specs.Runs.{BeginsEmpty, RanWords};

use crate::store::StoreKeeper;
use crate::store_runs::run_store;
use keep_sqlite::FileKeeper;
use mud_world::{Clock, Door, Keeper, MemoryKeeper, Spool};
use run_advice::Behind;
use run_words::{command_of, folder_word, store_word};
use sqlite::{FileFrom, FileStore, Start};
use std::alloc::{AllocError, Global};
use std::process::ExitCode;

/// The word of a store that is kept in memory alone, and is empty at the start of each run.
const IN_MEMORY: &str = ":memory:";

/// The path of the file that is the store of these words, where it is a file.
#[tactic(auto, using(crate::proofs::NamedRuns::no_path, crate::proofs::NamedRuns::no_file, crate::proofs::NamedRuns::file_named))]
pub fn path_of(alloc: Global, words: &[String]) -> Result<Option<String>, AllocError>
    ensures path { IfOk result (λ path. option_map string_bytes path ≡ path_in (words_of words.now)) }
    ensures wanted { OnErr result (command_in (words_of words.now) ≢ None) }
{
    let Some(command) = command_of(alloc, words) else {
        return Ok(None);
    };
    let Some(word) = store_word(command, words) else {
        return Ok(None);
    };
    if word == IN_MEMORY {
        return Ok(None);
    }
    Ok(Some(String::from_str(alloc, word)?))
}

/// The path of the folder of these words. That of a command without one is empty.
#[tactic(auto, using(crate::proofs::NamedRuns::no_folder, crate::proofs::NamedRuns::without_folder, crate::proofs::NamedRuns::folder_named))]
pub fn folder_of(alloc: Global, words: &[String]) -> Result<String, AllocError>
    ensures folder { IfOk result (λ folder. string_bytes folder ≡ folder_in (words_of words.now)) }
    ensures wanted { OnErr result (command_in (words_of words.now) ≢ None) }
{
    let Some(command) = command_of(alloc, words) else {
        return Ok(String::new(alloc));
    };
    match folder_word(command, words) {
        Some(word) => String::from_str(alloc, word),
        None => Ok(String::new(alloc)),
    }
}

/// The words after the program's name.
pub fn behind_name(words: &[String]) -> &[String]
    ensures { result.now ≡ drop 1 words.now }
{
    match words {
        [_, behind @ ..] => behind,
        [] => words,
    }
}

/// A run that came to its end.
#[derive(Clone, Copy)]
pub struct Ran {
    /// What the program ends with.
    pub code: ExitCode,
    /// The number of its status.
    pub status: u8,
    /// What is to be told of the store.
    pub behind: Behind,
}

/// Runs these words over the store that they name: a file, or one in memory alone, that is empty. `S`
/// stands for what the files at the path hold, whatever it is. Without memory for the path nothing is run.
#[tactic(auto, using(crate::proofs::NamedRuns::some_named, crate::proofs::NamedRuns::none_named))]
pub fn run_named<S: Start, D: Door, P: Spool, C: Clock>(
    alloc: Global,
    rt: &HostRuntime,
    words: &[String],
    start: S,
    door: &mut D,
    spool: &mut P,
    clock: &mut C,
) -> Result<Ran, AllocError>
    ensures status { IfOk result (λ ran. ran.status ≡ exit_status ran.code) }
    ensures words { IfOk result (λ ran. Is Unlisted ran.status ↔ (command_in (words_of words.now) ≡ None)) }
    // It runs over the file that is at the path of its second word, or over an empty store in memory.
    ensures file { IfOk result (λ ran. IfSome (path_in (words_of words.now)) (λ _. BeginsWithFile (image_at S.Start)
        (λ first. RanWords ⟦<StoreKeeper<MemoryKeeper, FileKeeper<FileStore<FileFrom<S>>, S>> as Keeper>⟧
        ⟦<D as Door>⟧ ⟦<P as Spool>⟧ ⟦<C as Clock>⟧ (store.File first)
        (world door.old spool.old clock.old) (world door.new spool.new clock.new) ran.status (words_of words.now)))) }
    ensures memory { IfOk result (λ ran. path_in (words_of words.now) ≡ None → BeginsEmpty
        (λ first. RanWords ⟦<StoreKeeper<MemoryKeeper, FileKeeper<FileStore<FileFrom<S>>, S>> as Keeper>⟧
        ⟦<D as Door>⟧ ⟦<P as Spool>⟧ ⟦<C as Clock>⟧ (store.Memory first)
        (world door.old spool.old clock.old) (world door.new spool.new clock.new) ran.status (words_of words.now))) }
    ensures wanted { OnErr result (command_in (words_of words.now) ≢ None) }
{
    let path = path_of(alloc, words)?;
    let (status, behind) = run_store(alloc, rt, words, path, start, door, spool, clock);
    Ok(Ran {
        code: ExitCode::from(status),
        status,
        behind,
    })
}
