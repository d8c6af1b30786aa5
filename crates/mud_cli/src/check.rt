//! The command `check`: the lines of one usage file.
ghost use Rattle.std.specs.Prelude.{◌≡◌, IfOk, Ok, Err};
ghost use Rattle.mud_file.specs.File.{file_of};
ghost use Rattle.mud_cli.specs.Check.Answer.{checking};

mod lines;

use crate::answer::Answer;
use lines::{broken_line, file_lines};
use mud_base::Memory;
use mud_file::{UsageFile, read_usage};
use std::alloc::Global;
use usage_walk::{Broken, FileFault};

/// The most octets that a usage file has.
pub(crate) const LONGEST_FILE: usize = 262_144;

/// The lines of a usage file.
#[tactic(auto, unfolding(crate::specs::Check::Answer::checking))]
fn allowed(alloc: Global, file: &UsageFile) -> Result<Answer, Memory>
    ensures { IfOk result (λ answer. answer ≡ checking (Ok file.now)) }
{
    let text = file_lines(alloc, file)?;
    Ok(Answer {
        text,
        refused: false,
    })
}

/// The line of the rule that a usage file breaks.
#[tactic(auto, unfolding(crate::specs::Check::Answer::checking))]
fn broken(alloc: Global, broken: &Broken) -> Result<Answer, Memory>
    ensures { IfOk result (λ answer. answer ≡ checking (Err broken.now)) }
{
    let text = broken_line(alloc, broken)?;
    Ok(Answer {
        text,
        refused: true,
    })
}

/// The answer to the octets of a usage file.
pub(crate) fn checking(alloc: Global, octets: &[u8]) -> Result<Answer, Memory>
    ensures { IfOk result (λ answer. answer ≡ checking (file_of octets.now)) }
{
    match read_usage(alloc, octets) {
        Ok(file) => allowed(alloc, &file),
        Err(FileFault::Broken(fault)) => broken(alloc, &fault),
        Err(FileFault::Memory) => Err(Memory),
    }
}
