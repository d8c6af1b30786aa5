//! A run over the store that its words name.
ghost use Rattle.std.specs.Prelude.{◌≡◌, ◌↔◌, None, IfSome};
ghost use Rattle.run_common.specs.Status.{Is};
ghost use Rattle.run_common.specs.declared.status.Status.TheVariants.{Unlisted};
ghost use Rattle.run_words.specs.Words.{command_in, words_of};
ghost use Rattle.mud_cli.specs.Runs.{world};
ghost use Rattle.keep_sqlite.specs.FromFile.{BeginsWithFile};
ghost use Rattle.sqlite.specs.WalFiles.{image_at};
ghost use Rattle.mud.specs.Runs.{BeginsEmpty, RanWords, RunsWords};
ghost use Rattle.mud.specs.declared.store.StoreKeeper.TheVariants as store;

use crate::store::StoreKeeper;
use crate::store_ends::end_run;
use keep_sqlite::{FileKeeper, open_file};
use mud_base::Listed;
use mud_cli::mud_main;
use mud_world::{Clock, Door, Keeper, MemoryKeeper, Spool};
use run_advice::Behind;
use sqlite::{Alter, FileFrom, FileStore, Start};
use std::alloc::Global;

/// Runs these words over a file that was opened. It is one call over any store, since each call at the
/// store of a file is proved at length.
fn run_opened<T: Alter + Drop, S: Start, D: Door, P: Spool, C: Clock>(
    alloc: Global,
    words: &[String],
    keeper: FileKeeper<T, S>,
    door: &mut D,
    spool: &mut P,
    clock: &mut C,
) -> (u8, StoreKeeper<MemoryKeeper, FileKeeper<T, S>>)
    ensures words { Is Unlisted result.0 ↔ (command_in (words_of words.now) ≡ None) }
    ensures runs { RunsWords ⟦<StoreKeeper<MemoryKeeper, FileKeeper<T, S>> as Keeper>⟧
        ⟦<D as Door>⟧ ⟦<P as Spool>⟧ ⟦<C as Clock>⟧ (store.File keeper) result.1
        (world door.old spool.old clock.old) (world door.new spool.new clock.new) result.0 (words_of words.now) }
{
    mud_main(alloc, words, StoreKeeper::File(keeper), door, spool, clock)
}

/// Runs these words over a store in memory alone, that is empty.
fn run_in_memory<T: Alter + Drop, S: Start, D: Door, P: Spool, C: Clock>(
    alloc: Global,
    words: &[String],
    door: &mut D,
    spool: &mut P,
    clock: &mut C,
) -> (u8, StoreKeeper<MemoryKeeper, FileKeeper<T, S>>)
    ensures words { Is Unlisted result.0 ↔ (command_in (words_of words.now) ≡ None) }
    ensures runs { BeginsEmpty (λ first. RunsWords ⟦<StoreKeeper<MemoryKeeper, FileKeeper<T, S>> as Keeper>⟧
        ⟦<D as Door>⟧ ⟦<P as Spool>⟧ ⟦<C as Clock>⟧ (store.Memory first) result.1
        (world door.old spool.old clock.old) (world door.new spool.new clock.new) result.0 (words_of words.now)) }
{
    let keeper = MemoryKeeper::new(alloc, Listed::new(alloc));
    mud_main(
        alloc,
        words,
        StoreKeeper::Memory(keeper),
        door,
        spool,
        clock,
    )
}

/// Runs these words over the file at a path, and answers the status and the keeper of the file. `S`
/// stands for what the files at the path hold, whatever it is.
pub fn run_file<S: Start, D: Door, P: Spool, C: Clock>(
    alloc: Global,
    rt: &HostRuntime,
    words: &[String],
    path: String,
    start: S,
    door: &mut D,
    spool: &mut P,
    clock: &mut C,
) -> (
    u8,
    StoreKeeper<MemoryKeeper, FileKeeper<FileStore<FileFrom<S>>, S>>,
)
    ensures words { Is Unlisted result.0 ↔ (command_in (words_of words.now) ≡ None) }
    // The run begins with the items that the file held.
    ensures runs { BeginsWithFile (image_at S.Start)
        (λ first. RunsWords ⟦<StoreKeeper<MemoryKeeper, FileKeeper<FileStore<FileFrom<S>>, S>> as Keeper>⟧
        ⟦<D as Door>⟧ ⟦<P as Spool>⟧ ⟦<C as Clock>⟧ (store.File first) result.1
        (world door.old spool.old clock.old) (world door.new spool.new clock.new) result.0 (words_of words.now)) }
{
    let keeper = open_file(rt, path, start);
    run_opened(alloc, words, keeper, door, spool, clock)
}

/// Runs these words over the file at the path, or where there is none over a store in memory alone,
/// that is empty. It answers the status, and what is to be told of the store. It stands over any
/// `S`, and hands out no keeper, since a caller at the store of a file is proved at length.
pub fn run_store<S: Start, D: Door, P: Spool, C: Clock>(
    alloc: Global,
    rt: &HostRuntime,
    words: &[String],
    path: Option<String>,
    start: S,
    door: &mut D,
    spool: &mut P,
    clock: &mut C,
) -> (u8, Behind)
    ensures words { Is Unlisted result.0 ↔ (command_in (words_of words.now) ≡ None) }
    ensures file { IfSome path (λ _. BeginsWithFile (image_at S.Start)
        (λ first. RanWords ⟦<StoreKeeper<MemoryKeeper, FileKeeper<FileStore<FileFrom<S>>, S>> as Keeper>⟧
        ⟦<D as Door>⟧ ⟦<P as Spool>⟧ ⟦<C as Clock>⟧ (store.File first)
        (world door.old spool.old clock.old) (world door.new spool.new clock.new) result.0 (words_of words.now))) }
    ensures memory { path ≡ None → BeginsEmpty
        (λ first. RanWords ⟦<StoreKeeper<MemoryKeeper, FileKeeper<FileStore<FileFrom<S>>, S>> as Keeper>⟧
        ⟦<D as Door>⟧ ⟦<P as Spool>⟧ ⟦<C as Clock>⟧ (store.Memory first)
        (world door.old spool.old clock.old) (world door.new spool.new clock.new) result.0 (words_of words.now)) }
{
    match path {
        Some(path) => {
            let (status, keeper) = run_file(alloc, rt, words, path, start, door, spool, clock);
            (status, end_run(alloc, words, status, keeper))
        }
        None => {
            let (status, keeper) = run_in_memory::<FileStore<FileFrom<S>>, S, D, P, C>(
                alloc, words, door, spool, clock,
            );
            (status, end_run(alloc, words, status, keeper))
        }
    }
}
