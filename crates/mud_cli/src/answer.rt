//! Commands that read an input as a whole before they answer.
ghost use Rattle.std.specs.Prelude.{◌≡◌, ◌+◌, IfOk, [], ◌∷◌, if◌then◌else◌};
ghost use Rattle.run_common.specs.Ends.{IsSteady, IsStopped};
ghost use Rattle.run_common.specs.Output.{WritesOutput, WritesPart};
ghost use Rattle.run_common.specs.Status.{Is, IsNot, IsOneOf, status_number};
ghost use Rattle.run_common.specs.declared.status.Status.TheVariants.{Done, Refused, DoorFailed, NoMemory};
ghost use Rattle.mud_cli.specs.Answers.{answer_to, output_of_input};
ghost use Rattle.mud_cli.specs.Answers as answers;
ghost use Rattle.mud_cli.specs.Promises.{ReadUpTo};

use crate::check::{LONGEST_FILE, checking};
use crate::hear::{LONGEST_MESSAGE, answer_of};
use mud_base::{Bytes, Memory};
use mud_world::{Door, Failed, ReadFault, read_whole, say};
use run_common::Status;
use run_words::Message;
use std::alloc::Global;

/// What a command reads as a whole before it answers.
#[derive(Clone, Copy)]
pub enum Input {
    /// One message or frame.
    Message(Message),
    /// One usage file.
    UsageFile,
}

/// What a command writes, and whether its input breaks a rule of its reader.
#[derive(Drop)]
pub struct Answer {
    pub text: Bytes,
    pub refused: bool,
}

/// The most octets that an input has.
#[tactic(auto, unfolding(crate::specs::Answers::most_of))]
fn most_of(input: Input) -> usize
    ensures { result ≡ answers.most_of input }
{
    match input {
        Input::Message(_) => LONGEST_MESSAGE,
        Input::UsageFile => LONGEST_FILE,
    }
}

/// The answer to an input.
#[tactic(auto, unfolding(crate::specs::Answers::answer_to))]
fn answer_to(alloc: Global, input: Input, octets: &[u8]) -> Result<Answer, Memory>
    ensures { IfOk result (λ answer. answer ≡ answer_to input octets.now) }
{
    match input {
        Input::Message(message) => answer_of(alloc, message, octets),
        Input::UsageFile => checking(alloc, octets),
    }
}

/// The status of a run whose answer was written.
fn status_of(answer: &Answer) -> Status
    ensures { status_number result ≡ if answer.now.refused then 3 else 0 }
{
    if answer.refused {
        Status::Refused
    } else {
        Status::Done
    }
}

/// Reads a whole input and writes what it says.
pub(crate) fn answer_input<D: Door>(alloc: Global, input: Input, door: &mut D) -> Status
    ensures statuses { IsOneOf (Done ∷ Refused ∷ DoorFailed ∷ NoMemory ∷ []) (status_number result) }
    ensures fault { Is DoorFailed (status_number result) → IsStopped (D.view door.old) (D.view door.new) }
    ensures steady { IsNot DoorFailed (status_number result) → IsSteady (D.view door.old) (D.view door.new) }
    ensures done { D.tells → IsOneOf (Done ∷ Refused ∷ []) (status_number result) → WritesOutput (output_of_input input (D.view door.old).state.left) (D.view door.old).state (D.view door.new).state (status_number result) }
    ensures part { D.tells → IsOneOf (DoorFailed ∷ NoMemory ∷ []) (status_number result) → WritesPart (output_of_input input (D.view door.old).state.left) (D.view door.old).state (D.view door.new).state }
    ensures within { D.tells → ReadUpTo (answers.most_of input + 1) (D.view door.old).state (D.view door.new).state }
    ensures turns { (D.view door.new).turns ≡ (D.view door.old).turns }
{
    let octets = match read_whole(alloc, door, most_of(input)) {
        Ok(octets) => octets,
        Err(ReadFault::Failed) => return Status::DoorFailed,
        Err(ReadFault::Memory) => return Status::NoMemory,
    };
    let Ok(answer) = answer_to(alloc, input, octets.octets()) else {
        return Status::NoMemory;
    };
    match say(door, answer.text.octets()) {
        Ok(()) => status_of(&answer),
        Err(Failed) => Status::DoorFailed,
    }
}
