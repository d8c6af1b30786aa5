//! The words of a line that name what its command works on.
ghost use Rattle.std.specs.Prelude.{◌≡◌, Some, is_some, option_map};
ghost use Rattle.run_words.specs.Operands as spec;
ghost use Rattle.run_words.specs.Words.{command_in, words_of};

use crate::command::Command;

/// The second word of a line.
fn second_word(words: &[String]) -> Option<&str>
    ensures { option_map (λ word. word.now) result ≡ spec.second_of (words_of words.now) }
{
    match words {
        [_, second, ..] => Some(second.as_str()),
        _ => None,
    }
}

/// The third word of a line.
fn third_word(words: &[String]) -> Option<&str>
    ensures { option_map (λ word. word.now) result ≡ spec.third_of (words_of words.now) }
{
    match words {
        [_, _, third, ..] => Some(third.as_str()),
        _ => None,
    }
}

impl Command {
    /// Whether the command's line names a store.
    fn has_store(self) -> bool
        ensures { result ≡ spec.has_store self }
    {
        match self {
            Command::Judge
            | Command::Snoop
            | Command::Tally
            | Command::Import
            | Command::Replay
            | Command::Serve { .. }
            | Command::Report(_)
            | Command::Export(_) => true,
            Command::Hear(_) | Command::Check | Command::Frames | Command::Drill(_) => false,
        }
    }

    /// Whether the command's line names a folder.
    fn has_folder(self) -> bool
        ensures { result ≡ spec.has_folder self }
    {
        match self {
            Command::Import => true,
            Command::Hear(_)
            | Command::Check
            | Command::Frames
            | Command::Judge
            | Command::Snoop
            | Command::Tally
            | Command::Replay
            | Command::Serve { .. }
            | Command::Report(_)
            | Command::Export(_)
            | Command::Drill(_) => false,
        }
    }
}

/// The word that names the store of a line's command. None where the command has no store.
#[tactic(auto, using(crate::proofs::Named::names_store))]
pub fn store_word(command: Command, words: &[String]) -> Option<&str>
    ensures word { option_map (λ word. word.now) result ≡ spec.store_in command (words_of words.now) }
    ensures named { command_in (words_of words.now) ≡ Some command → is_some result ≡ spec.has_store command }
{
    if command.has_store() {
        return second_word(words);
    }
    None
}

/// The word that names the folder of a line's command. None where the command has no folder.
#[tactic(auto, using(crate::proofs::Named::names_folder))]
pub fn folder_word(command: Command, words: &[String]) -> Option<&str>
    ensures word { option_map (λ word. word.now) result ≡ spec.folder_in command (words_of words.now) }
    ensures named { command_in (words_of words.now) ≡ Some command → is_some result ≡ spec.has_folder command }
{
    if command.has_folder() {
        return third_word(words);
    }
    None
}
